//! Registers by name, in the order of their declarations, and what arguments mean.
ghost use Rattle.std.specs.Prelude.{◌≡◌, ◌++◌, ◌∷◌, [], not, true, false, Some, IfOk, option_map};
ghost use Rattle.qasm_forms.specs.Cutting.{seen_bytes};
ghost use Rattle.qasm_reader.specs.Acts.{register, index_of, place_in};
ghost use Rattle.qasm_reader.specs.Reasons.{is_declared, reaches};
ghost use Rattle.qasm_reader.specs.Private.Seen.{seen_register, seen_find};
ghost use Rattle.qasm_reader.specs.Private.Scope.{found_as, find, why_missed};

use crate::reason::Why;
use bit_lists::OutOfMemory;
use indexmap::IndexMap;
use qasm_forms::Argument;
use qasm_gates::KeyedNames;
use qasm_lex::number_below;
use std::alloc::Global;
use std::marker::Model;

/// A declared register: whether it holds qubits, its first qubit, and how many places it has.
#[derive(Clone, Copy, Debug, Default, PartialEq, Eq)]
pub struct Register {
    pub quantum: bool,
    pub first: u32,
    pub size: u32,
}

/// What an argument means: the register that it names, and the place in it. None is all places.
#[derive(Clone, Copy, Debug, Default, PartialEq, Eq)]
pub struct Target {
    pub register: Register,
    pub index: Option<u32>,
}

/// Why an argument means nothing.
#[derive(Clone, Copy, Debug, PartialEq, Eq)]
pub enum Miss {
    /// No register of the sort has its name.
    Unknown,
    /// Its index isn't below the register's size.
    Beyond,
}

impl Miss {
    pub fn why(self) -> Why
        ensures { result ≡ why_missed self }
    {
        match self {
            Miss::Unknown => Why::UnknownRegister,
            Miss::Beyond => Why::IndexOutOfRange,
        }
    }
}

impl Register {
    /// The place of an index, or all places.
    fn place(self, index: Option<&[u8]>) -> Result<Target, Miss>
        ensures { seen_find result ≡ found_as false (reaches (Some (seen_register self)) (index_of (seen_bytes index.entry))) (Some (place_in (seen_register self) (index_of (seen_bytes index.entry)))) }
    {
        match index {
            None => Ok(Target {
                register: self,
                index: None,
            }),
            Some(digits) => match number_below(digits, u64::from(self.size)) {
                Some(number) => Ok(Target {
                    register: self,
                    index: Some(number as u32),
                }),
                None => Err(Miss::Beyond),
            },
        }
    }
}

/// The registers that are declared. A look-up takes constant time on average, by a hash whose key a text can't know in advance.
#[derive(Drop)]
pub struct Registers<'a> {
    places: IndexMap<&'a [u8], Register, KeyedNames>,
}

impl<'a> Model for Registers<'a> {
    ghost use Rattle.std.specs.Prelude.{List, ℕ, map};
    ghost use Rattle.qasm_reader.specs.Acts.{Register as Shown};
    ghost use Rattle.qasm_reader.specs.Private.Seen.{entry_of};

    ghost Value = { List (List ℕ × Shown) };

    ghost view = { λ r. map entry_of r.places.entries };
}

impl<'a> Registers<'a> {
    /// None, with a hash of this key.
    pub fn new(alloc: Global, names: KeyedNames) -> Registers<'a>
        ensures { result ≡ [] }
    {
        Registers {
            places: IndexMap::with_hasher(alloc, names),
        }
    }

    /// The register of a name.
    pub fn get(&self, name: &[u8]) -> Option<Register>
        ensures { option_map seen_register result ≡ register self.now name.now }
    {
        self.places.get(name).copied()
    }

    /// Declares a name. Whether it was new; where it wasn't, the registers are of no use any more.
    pub fn declare(&mut self, name: &'a [u8], place: Register) -> Result<bool, OutOfMemory>
        ensures new { IfOk result (λ new. new ≡ not (is_declared self.old name.now)) }
        ensures declared { IfOk result (λ new. new ≡ true → self.new ≡ self.old ++ (name.now, seen_register place) ∷ []) }
    {
        let before = self.places.insert(name, place)?;
        Ok(before.is_none())
    }

    /// What an argument means among the registers of this sort.
    pub fn find(&self, argument: &Argument<'_>, quantum: bool) -> Result<Target, Miss>
        ensures { seen_find result ≡ find self.now quantum argument.now }
    {
        match self.get(argument.name()) {
            Some(register) => {
                if register.quantum == quantum {
                    register.place(argument.index())
                } else {
                    Err(Miss::Unknown)
                }
            }
            None => Err(Miss::Unknown),
        }
    }
}
