// Variables, and what they are bound to. A list keeps the places of the variables in it and is spliced where it is used, in a rule within
// the limit alone. So a list that doubles again and again costs nothing until then, and then no more than the limit's elements.
ghost use Rattle.std.specs.Prelude.{◌≡◌, ◌<◌, ◌≤◌, ◌∷◌, ◌++◌, ℕ, [], false, if◌then◌else◌, All, IfOk, IfSome, List, None, OnOk, Option, Some, length, map, reverse, slice_get};
ghost use Rattle.std.specs.HashMap.{get_by};
ghost use Rattle.std.specs.Option.{option_map};
ghost use Rattle.std.specs.Str.{bytes_eq};
ghost use Rattle.npf_faults.specs.First.{first_fault};
ghost use Rattle.npf_model.specs.declared.iface.Iface.{Iface};
ghost use Rattle.npf_expand_values.specs.Atom.{Atom as Plain, Binding, kept_atom};
ghost use Rattle.npf_expand_values.specs.Kept.{AreDefs, AreDefs-prop, AreKeptBy, AreKeptIn, AreSpliced, IsBound, IsBoundWhere, KnownNames, IsDefBehind, IsOfFirst, def_binding, kept_parts, part_atoms, parts_atoms};
ghost use Rattle.npf_expand_values.specs.Host.{are_several, one_place_faults};
ghost use Rattle.npf_expand_values.specs.Iface.{bound_name};
ghost use Rattle.npf_expand_values.specs.Use.{atoms_of, is_several, single_faults, use_faults};

use crate::atom::Atom;
use crate::iface::Interfaces;
use crate::leader::Leader;
use crate::role::Role;
use crate::summary::Summary;
use npf_faults::{ConfFault, Fault, fault_if};
use npf_syntax::Boxed;
use npf_types::{NoMemory, Span};
use std::alloc::Global;
use std::collections::HashMap;

/// One value of a list, or the values of a variable, by the place of its definition.
#[derive(Clone, Copy)]
pub(crate) enum Part<'a> {
    Single(Atom<'a>),
    Defined(usize),
}

/// Values, one behind the other.
#[derive(Drop)]
pub(crate) struct Spliced<'a> {
    pub(crate) leader: Leader<'a>,
    pub(crate) parts: Vec<Part<'a>>,
    pub(crate) summary: Summary,
}

/// What a value or a variable is bound to, and whether that is a list.
#[derive(Clone, Copy)]
pub(crate) struct Bound<'a> {
    pub(crate) many: bool,
    pub(crate) leader: Leader<'a>,
    pub(crate) part: Part<'a>,
    pub(crate) summary: Summary,
}

/// What is kept of the values of a definition: of a single one no more than itself, from which the rest follows, since a text may
/// have 800,000 definitions.
#[derive(Drop)]
enum DefValues<'a> {
    Nothing,
    One(Atom<'a>),
    Many(Boxed<Spliced<'a>>),
}

/// A definition, and whether it is one of a list.
#[derive(Drop)]
pub struct Def<'a> {
    many: bool,
    values: DefValues<'a>,
}

/// The definitions so far for a run with these interfaces, each behind those that it names, and the place of the latest of each name.
#[derive(Drop)]
pub struct Variables<'a, 'i> {
    pub(crate) interfaces: &'a Interfaces<'i>,
    defs: Vec<Def<'a>>,
    latest: HashMap<&'a [u8], usize>,
    ghost behind: { AreDefs interfaces.now.list.now (reverse defs.items) } by { AreDefs-prop interfaces.now.list.now (reverse defs.items) },
    ghost within: { (text : List ℕ) → (place : ℕ) → get_by (λ name. bytes_eq text name.now) latest ≡ Some place
        → place < length defs.items },
}

impl<'a> Bound<'a> {
    /// One value, which is no list.
    pub(crate) fn alone(interfaces: &Interfaces, atom: Atom<'a>) -> Bound<'a>
        ensures { (bindings : List Binding)
            → IsBound (record { ifaces = interfaces.now.list.now; bindings = bindings }) result (record { many = false; atoms = kept_atom atom.entry ∷ [] }) }
    {
        Bound {
            many: false,
            leader: Leader::of(atom),
            part: Part::Single(atom),
            summary: Summary::of(interfaces, &atom),
        }
    }

    /// The name of the interface that stands there, where it is one.
    pub(crate) fn name(&self) -> Option<&'a [u8]>
        ensures { (known : KnownNames) → (binding : Binding) → IsBound known self.now binding
            → option_map (λ name. name.now) result ≡ bound_name (Some binding) }
    {
        self.leader.name()
    }

    /// The first fault of the values where they are used at this place, one or many, but for addresses.
    pub(crate) fn each_fault(&self, role: Role, span: Span) -> Option<ConfFault>
        ensures { (known : KnownNames) → (binding : Binding) → IsBound known self.now binding
            → result ≡ first_fault (use_faults role span binding.atoms) }
    {
        self.summary.fault(role, span)
    }

    /// Whether the values are more than one, but as addresses.
    #[tactic(auto, using(crate::proofs::MessageLemmas::several_counted))]
    pub(crate) fn is_several(&self, role: Role) -> bool
        ensures { (known : KnownNames) → (binding : Binding) → IsBound known self.now binding
            → result ≡ is_several role binding.atoms }
    {
        match role {
            Role::AsInterface => !self.leader.alike,
            _ => self.summary.count > 1,
        }
    }

    #[tactic(auto, using(crate::proofs::MessageLemmas::several_counted))]
    fn are_several(&self, role: Role) -> bool
        ensures { (known : KnownNames) → (binding : Binding) → IsBound known self.now binding
            → result ≡ are_several known.ifaces role binding.atoms }
    {
        match role {
            Role::AsAddress => self.summary.hosts > 1,
            Role::AsPort => self.is_several(Role::AsPort),
            Role::AsProtocol => self.is_several(Role::AsProtocol),
            Role::AsInterface => self.is_several(Role::AsInterface),
        }
    }

    /// The first fault of the values where they are used at this place, where one value stands.
    pub(crate) fn one_place_fault(&self, role: Role, span: Span) -> Option<ConfFault>
        ensures { (known : KnownNames) → (binding : Binding) → IsBound known self.now binding
            → result ≡ first_fault (one_place_faults known.ifaces role span binding) }
    {
        if self.many && self.are_several(role) {
            return fault_if(true, span, Fault::Expected);
        }
        self.summary.place_fault(role, span)
    }

    /// The first fault of the values where they are used at this place, where one value stands that is no address.
    pub(crate) fn single_fault(&self, role: Role, span: Span) -> Option<ConfFault>
        ensures { (known : KnownNames) → (binding : Binding) → IsBound known self.now binding
            → result ≡ first_fault (single_faults role span binding) }
    {
        if self.many && self.is_several(role) {
            return fault_if(true, span, Fault::Expected);
        }
        self.summary.fault(role, span)
    }
}

impl<'a> Spliced<'a> {
    /// None yet, with room for so many.
    pub(crate) fn new(alloc: Global, room: usize) -> Result<Spliced<'a>, NoMemory>
        ensures { IfOk result (λ values. (ifaces : List Iface) → (bindings : List Binding) → AreSpliced ifaces bindings values []) }
    {
        Ok(Spliced {
            leader: Leader::none(),
            parts: Vec::with_capacity(alloc, room)?,
            summary: Summary::none(),
        })
    }

    /// Puts the values that these are bound to behind the others.
    pub(crate) fn add(&mut self, bound: &Bound<'a>) -> Result<(), NoMemory>
        ensures { OnOk result ((ifaces : List Iface) → (bindings : List Binding) → (atoms : List Plain) → (binding : Binding)
            → AreSpliced ifaces bindings self.old atoms → IsBound (record { ifaces = ifaces; bindings = bindings }) bound.now binding
            → AreSpliced ifaces bindings self.new (atoms ++ binding.atoms)) }
    {
        self.parts.push(bound.part)?;
        self.summary = self.summary.join(&bound.summary);
        self.leader = self.leader.join(&bound.leader);
        Ok(())
    }

    /// The same, where a name may not be defined.
    pub(crate) fn add_where(&mut self, bound: Option<Bound<'a>>) -> Result<(), NoMemory>
        ensures { OnOk result ((ifaces : List Iface) → (bindings : List Binding) → (atoms : List Plain) → (binding : Option Binding)
            → AreSpliced ifaces bindings self.old atoms → IsBoundWhere (record { ifaces = ifaces; bindings = bindings }) bound.entry binding
            → AreSpliced ifaces bindings self.new (atoms ++ atoms_of binding)) }
    {
        match bound {
            Some(bound) => self.add(&bound),
            None => Ok(()),
        }
    }

    // Their only part, where they are one.
    fn only(&self) -> Option<Part<'a>>
        ensures { IfSome result (λ part. self.now.parts.items ≡ part ∷ []) }
    {
        match self.parts.as_slice() {
            [part] => Some(*part),
            _ => None,
        }
    }
}

impl<'a> DefValues<'a> {
    // Those of a definition that was not refused.
    fn of(alloc: Global, values: Spliced<'a>) -> Result<DefValues<'a>, NoMemory>
        ensures parts { IfOk result (λ kept. kept_parts kept ≡ values.entry.parts.items) }
        ensures kept { IfOk result (λ kept. (ifaces : List Iface) → (bindings : List Binding) → (atoms : List Plain)
            → AreSpliced ifaces bindings values.entry atoms → AreKeptIn ifaces kept atoms) }
    {
        match values.only() {
            Some(Part::Single(atom)) => Ok(DefValues::One(atom)),
            _ => Ok(DefValues::Many(Boxed::new(alloc, values)?)),
        }
    }

    // The first of them, and what becomes of them.
    fn kept(&self, interfaces: &Interfaces) -> (Leader<'a>, Summary)
        ensures { (atoms : List Plain) → AreKeptIn interfaces.now.list.now self.now atoms
            → AreKeptBy interfaces.now.list.now result.0 result.1 atoms }
    {
        match self {
            DefValues::Nothing => (Leader::none(), Summary::none()),
            DefValues::One(atom) => (Leader::of(*atom), Summary::of(interfaces, atom)),
            DefValues::Many(values) => (values.get().leader, values.get().summary),
        }
    }

    // Their only part, where they are one.
    fn only(&self) -> Option<Part<'a>>
        ensures { IfSome result (λ part. kept_parts self.now ≡ part ∷ []) }
    {
        match self {
            DefValues::Nothing => None,
            DefValues::One(atom) => Some(Part::Single(*atom)),
            DefValues::Many(values) => values.get().only(),
        }
    }

    // Puts their parts on a stack.
    fn put_on(&self, stack: &mut Vec<Part<'a>>) -> Result<(), NoMemory>
        ensures { OnOk result (stack.new.items ≡ stack.old.items ++ kept_parts self.now) }
    {
        match self {
            DefValues::Nothing => {}
            DefValues::One(atom) => stack.push(Part::Single(*atom))?,
            DefValues::Many(values) => stack.extend_from_slice(values.get().parts.as_slice())?,
        }
        Ok(())
    }
}

impl<'a> Def<'a> {
    /// One that is refused: it binds its name to nothing.
    pub(crate) fn refused(many: bool) -> Def<'a>
        ensures behind { (ifaces : List Iface) → (bindings : List Binding) → IsDefBehind ifaces bindings result }
        ensures binding { (bindings : List Binding) → def_binding bindings result ≡ record { many = many; atoms = [] } }
    {
        Def {
            many,
            values: DefValues::Nothing,
        }
    }

    /// One of these values.
    pub(crate) fn of(alloc: Global, many: bool, values: Spliced<'a>) -> Result<Def<'a>, NoMemory>
        ensures behind { IfOk result (λ def. (ifaces : List Iface) → (bindings : List Binding) → (atoms : List Plain) → AreSpliced ifaces bindings values.entry atoms
            → (many ≡ false → length atoms ≤ 1) → IsDefBehind ifaces bindings def) }
        ensures binding { IfOk result (λ def. (ifaces : List Iface) → (bindings : List Binding) → (atoms : List Plain) → AreSpliced ifaces bindings values.entry atoms
            → def_binding bindings def ≡ record { many = many; atoms = atoms }) }
    {
        Ok(Def {
            many,
            values: DefValues::of(alloc, values)?,
        })
    }
}

impl<'a, 'i> Variables<'a, 'i> {
    ghost use Rattle.npf_expand_values.specs.Scope.{env_in, ifaces_in, known, known_in};

    /// No definitions yet, for a run with these interfaces.
    pub fn new(alloc: Global, interfaces: &'a Interfaces<'i>) -> Variables<'a, 'i>
        ensures none { (text : List ℕ) → env_in result text ≡ None }
        ensures run { ifaces_in result ≡ interfaces.now.list.now }
    {
        Variables {
            interfaces,
            defs: Vec::new(alloc),
            latest: HashMap::new(alloc),
        }
    }

    /// What a name is bound to.
    pub(crate) fn find(&self, name: &[u8]) -> Option<Bound<'a>>
        ensures { IsBoundWhere (known_in self.now) result (env_in self.now name.now) }
    {
        match self.latest.get(&name) {
            Some(place) => Some(self.bound(*place)),
            None => None,
        }
    }

    fn bound(&self, place: usize) -> Bound<'a>
        requires { place < length self.now.defs.items }
        ensures { IsBoundWhere (known_in self.now) (Some result) (slice_get (known self.now) place) }
    {
        let def = &self.defs[place];
        let (leader, summary) = def.values.kept(self.interfaces);
        Bound {
            many: def.many,
            leader,
            part: self.part(place),
            summary,
        }
    }

    // What a definition is in a list: its only part itself, so that no chain of them has to be followed.
    fn part(&self, place: usize) -> Part<'a>
        requires { place < length self.now.defs.items }
        ensures means { part_atoms (known self.now) result ≡ atoms_of (slice_get (known self.now) place) }
        ensures older { IsOfFirst (length (known self.now)) result }
    {
        match self.defs[place].values.only() {
            Some(part) => part,
            None => Part::Defined(place),
        }
    }

    /// Binds a name to what its definition says.
    pub fn put(&mut self, name: &'a [u8], def: Def<'a>) -> Result<(), NoMemory>
        requires { IsDefBehind (ifaces_in self.old) (known self.old) def }
        ensures run { ifaces_in self.new ≡ ifaces_in self.old }
        ensures bound { OnOk result ((text : List ℕ) → env_in self.new text
            ≡ (if bytes_eq name.now text then Some (def_binding (known self.old) def.entry) else env_in self.old text)) }
    {
        let place = self.defs.len();
        self.defs.push(def)?;
        self.latest.insert(name, place)?;
        Ok(())
    }

    /// The values that parts are.
    pub(crate) fn gather(
        &self,
        alloc: Global,
        parts: &[Part<'a>],
    ) -> Result<Vec<Atom<'a>>, NoMemory>
        requires { All (IsOfFirst (length (known self.now))) parts.now }
        ensures { IfOk result (λ atoms. map kept_atom atoms.items ≡ parts_atoms (known self.now) parts.now) }
    {
        let mut atoms = Vec::new(alloc);
        let mut stack = Vec::new(alloc);
        stack.extend_from_slice(parts)?;
        while let Some(part) = stack.pop() {
            match part {
                Part::Single(atom) => atoms.push(atom)?,
                Part::Defined(place) => self.defs[place].values.put_on(&mut stack)?,
            }
        }
        atoms.reverse();
        Ok(atoms)
    }
}
