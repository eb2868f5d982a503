// What a program may ask about the packet beyond its bytes. Both answers are one ghost member, so that a clause cites the coprocessor by
// one name.
ghost use Rattle.std.specs.Prelude.{◌≡◌};
ghost use Rattle.npf_bpf.specs.Coprocessor.{Coprocessor};

/// A coprocessor, as NetBSD's bpf(4) has them: it answers about one packet, the same each time.
pub trait Cop {
    ghost tells: { Self → Coprocessor };

    /// The packet's IP version (4 or 6), the offset of its layer 4, and its protocol.
    fn header(&self) -> (u32, u32, u32)
        ensures { result ≡ (tells self.now).header };

    /// Whether the table has the packet's source, or otherwise its destination. A table that
    /// doesn't exist has no members.
    fn member(&self, table: u32, source: bool) -> bool
        ensures { result ≡ (tells self.now).member table source };
}
