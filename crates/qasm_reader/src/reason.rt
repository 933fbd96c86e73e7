//! Why a text is refused.
ghost use Rattle.std.specs.Prelude.{◌≡◌};
ghost use Rattle.qasm_reader.specs.declared.reason.ReadStop.TheVariants.{OutOfMemory as NoMemory};

use bit_lists::OutOfMemory;
use qasm_lex::AngleRefusal;

/// Why a statement is refused, in the order in which the reasons of one statement are told.
#[derive(Clone, Copy, Debug, PartialEq, Eq)]
pub enum Why {
    /// At this place of the text, counted from 0, no token, blank or comment begins.
    BadByte(u32),
    /// The first statement isn't `OPENQASM 2.0;`.
    NoVersion,
    /// It isn't closed by `;`, or has no form of a statement.
    NotAStatement,
    /// A statement of OpenQASM 2.0 that this reader leaves out, or an include of another file than `qelib1.inc`.
    OutOfProfile,
    /// No gate has this name.
    UnknownName,
    /// The name is declared already.
    Redeclared,
    /// No register of the kind that is needed has this name.
    UnknownRegister,
    /// An index that isn't below the register's size, or a size that is 0 or more than 1,000,000.
    IndexOutOfRange,
    /// The gate has another number of arguments or of angles.
    WrongCount,
    /// Whole registers of different sizes.
    SizesDiffer,
    /// A gate on the same qubit twice.
    RepeatedQubit,
    /// A definition that calls gates more than 32 deep.
    TooDeep,
    /// More than 4,000,000 items in the calls of defined gates.
    TooManyItems,
    /// The angle is no exact fraction of π.
    AngleRefused(AngleRefusal),
    /// The angle isn't on the grid of its gate.
    OffGrid,
    /// A gate on a qubit that was measured.
    Measured,
    /// More qubits than the limit.
    TooManyQubits,
    /// More than 1,000,000 gates.
    TooManyGates,
}

/// The first statement that is refused, counted from 1, and why. A text of blanks and comments alone, or of nothing, is refused as statement 0.
#[derive(Clone, Copy, Debug, PartialEq, Eq)]
pub struct Refusal {
    pub statement: u32,
    pub why: Why,
}

/// Why a text gave no circuit.
#[derive(Clone, Copy, Debug, PartialEq, Eq)]
pub enum ReadStop {
    Refused(Refusal),
    OutOfMemory,
}

impl From<OutOfMemory> for ReadStop {
    ghost from_gives = { λ _ stop. stop ≡ NoMemory };

    fn from(_: OutOfMemory) -> Self {
        ReadStop::OutOfMemory
    }
}
