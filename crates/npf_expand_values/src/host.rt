// Interfaces where an address is asked for: what a value is among the addresses of a run's interfaces.
ghost use Rattle.std.specs.Prelude.{◌≡◌, Some};
ghost use Rattle.npf_expand_values.specs.Atom.{kept_atom};
ghost use Rattle.npf_expand_values.specs.Host.{host_count_of, hosts_of, is_missing};

use crate::atom::Atom;
use crate::iface::Interfaces;
use npf_types::Addr;

impl Interfaces<'_> {
    /// The addresses of interfaces that a value is: those of a function, and all of an interface that it names.
    pub fn hosts<'s>(&'s self, atom: &Atom<'s>) -> &'s [Addr]
        ensures { result.now ≡ hosts_of self.now.list.now (kept_atom atom.now) }
    {
        if let Atom::Addresses(_, addrs) = atom {
            return addrs;
        }
        match atom.host_name() {
            Some(name) => self.all_addresses(name),
            None => &[],
        }
    }

    /// How many elements a value is among addresses.
    pub(crate) fn host_count(&self, atom: &Atom) -> usize
        ensures { result ≡ host_count_of self.now.list.now (kept_atom atom.now) }
    {
        match atom.host_name() {
            Some(name) => self.all_addresses(name).len(),
            None => atom.count(),
        }
    }

    /// Whether a value names an interface that has no address.
    pub(crate) fn is_missing(&self, atom: &Atom) -> bool
        ensures { result ≡ is_missing self.now.list.now (kept_atom atom.now) }
    {
        match atom.host_name() {
            Some(name) => self.all_addresses(name).is_empty(),
            None => false,
        }
    }
}
