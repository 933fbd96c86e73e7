//! How a run ends.
ghost use Rattle.std.specs.Prelude.{◌≡◌};
ghost use Rattle.causes.specs.Status.{status_of};

use amp_dense::Stop;
use bit_lists::Order;
use outputs::SendStop;
use probabilities::WeighStop;
use qasm_reader::Refusal;

/// Why a run ended. Files are counted from 1.
#[derive(Clone, Copy)]
pub enum Cause {
    /// The whole output was written.
    Done,
    /// The two circuits aren't the same up to a scalar, and the whole output was written.
    Differs,
    /// The words ask for no command.
    BadWords,
    /// A file could not be opened or read.
    ReadFault,
    /// This file has more than 16,777,216 bytes.
    TooLong { file: u8 },
    /// This file's text is refused.
    Refused { file: u8, refusal: Refusal },
    /// The numbers of qubits of two circuits differ, or those of a circuit and of its input.
    QubitsDiffer { first: u8, second: u8 },
    /// At this gate of the circuit, or step of the comparison, counted from 1, a coefficient was wider than the rules allow.
    Width { step: u32 },
    /// At this step the diagrams held as many nodes as the rules allow, with their variables in this order, and more were wanted.
    Nodes { step: u32, order: Order, held: u32 },
    /// The weight of all states has a part without √2 of 2^127 or more.
    WeightTooWide,
    /// The weight of all states has a part without √2 of 2^60 or more, so that no sample is drawn.
    SampleTooWide,
    /// The number of qubits and the width of the matrix of a comparison are together more than 63, so that its trace isn't taken.
    FidelityTooWide,
    /// The output could not be written whole.
    WriteFault,
    /// Memory was wanted and refused.
    OutOfMemory,
}

/// The end of a run: the exit status and its cause.
#[derive(Clone, Copy)]
pub struct Ended {
    pub status: u8,
    pub cause: Cause,
}

impl Cause {
    pub fn status(&self) -> u8
        ensures { result ≡ status_of self.now }
    {
        match self {
            Cause::Done => 0,
            Cause::Differs => 1,
            Cause::BadWords => 2,
            Cause::ReadFault => 3,
            Cause::TooLong { .. } | Cause::Refused { .. } | Cause::QubitsDiffer { .. } => 4,
            Cause::Width { .. } | Cause::Nodes { .. } => 5,
            Cause::WeightTooWide | Cause::SampleTooWide | Cause::FidelityTooWide => 5,
            Cause::WriteFault => 6,
            Cause::OutOfMemory => 7,
        }
    }
}

impl From<Stop> for Cause {
    ghost use Rattle.std.specs.Prelude.{◌≡◌};
    ghost use Rattle.causes.specs.Stops.{cause_of};

    ghost from_gives = { λ stop cause. cause ≡ cause_of stop };

    fn from(stop: Stop) -> Self {
        match stop {
            Stop::Width { gate } => Cause::Width { step: gate },
            Stop::Nodes { gate, order, held } => Cause::Nodes {
                step: gate,
                order,
                held,
            },
            Stop::OutOfMemory => Cause::OutOfMemory,
        }
    }
}

impl From<WeighStop> for Cause {
    ghost use Rattle.std.specs.Prelude.{◌≡◌};
    ghost use Rattle.causes.specs.Stops.{cause_of_weighing};

    ghost from_gives = { λ stop cause. cause ≡ cause_of_weighing stop };

    fn from(stop: WeighStop) -> Self {
        match stop {
            WeighStop::TooWide => Cause::WeightTooWide,
            WeighStop::OutOfMemory => Cause::OutOfMemory,
        }
    }
}

impl From<SendStop> for Cause {
    ghost use Rattle.std.specs.Prelude.{◌≡◌};
    ghost use Rattle.causes.specs.Stops.{cause_of_sending};

    ghost from_gives = { λ stop cause. cause ≡ cause_of_sending stop };

    fn from(stop: SendStop) -> Self {
        match stop {
            SendStop::Fault => Cause::WriteFault,
            SendStop::OutOfMemory => Cause::OutOfMemory,
        }
    }
}
