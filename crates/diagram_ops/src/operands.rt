//! What an operation is applied to.
ghost use Rattle.std.specs.Prelude.{◌≡◌};
ghost use Rattle.diagram_ops.specs.Keys.{is_symmetric, keyed, sorted};

/// The table that is true where an odd number of three is true.
const ODD: u8 = 150;

/// The table that is true where at least two of three are true.
const MAJORITY: u8 = 232;

/// Three nodes by number, in the order in which a table's bits read them.
#[derive(Clone, Copy, Debug, PartialEq, Eq, Drop)]
pub struct Operands {
    pub f: u32,
    pub g: u32,
    pub h: u32,
}

impl Operands {
    /// The same nodes by rising number.
    fn sorted(self) -> Operands
        ensures { result ≡ sorted self }
    {
        let low = self.f.min(self.g);
        let high = self.f.max(self.g);
        Operands {
            f: low.min(self.h),
            g: low.max(high.min(self.h)),
            h: high.max(self.h),
        }
    }

    /// The nodes as a table's answers are kept under them: sorted where the table reads them in any
    /// order.
    pub fn keyed(self, table: u8) -> Operands
        ensures { result ≡ keyed table self }
    {
        if table == ODD || table == MAJORITY {
            self.sorted()
        } else {
            self
        }
    }
}
