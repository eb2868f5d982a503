// The control bits of a segment (RFC 9293 section 3.1).
ghost use Rattle.std.specs.Prelude.{◌≡◌};
ghost use Rattle.npf_tcp.specs.Flag.{has_fin, has_syn, has_rst, has_ack};

const FIN: u8 = 0x01;

const SYN: u8 = 0x02;

const RST: u8 = 0x04;

const ACK: u8 = 0x10;

pub fn has_fin(flags: u8) -> bool
    ensures { result ≡ has_fin flags }
{
    flags & FIN != 0
}

pub fn has_syn(flags: u8) -> bool
    ensures { result ≡ has_syn flags }
{
    flags & SYN != 0
}

pub fn has_rst(flags: u8) -> bool
    ensures { result ≡ has_rst flags }
{
    flags & RST != 0
}

pub fn has_ack(flags: u8) -> bool
    ensures { result ≡ has_ack flags }
{
    flags & ACK != 0
}
