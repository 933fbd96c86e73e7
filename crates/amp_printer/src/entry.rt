//! Entries of a vector or a matrix, and the states that have them.
ghost use Rattle.std.specs.Prelude.{◌≡◌, ◌≤◌, ◌+◌, ◌++◌, [], length};
ghost use Rattle.amp_printer.specs.Texts.{entry_text, state_line};

use crate::Line;
use bit_lists::Bits;
use ring_omega::Quad;

/// The number q/√2^k as `(a,b,c,d)/sqrt2^k`, printed as it is given.
pub fn entry_text(q: Quad, k: u32) -> Line
    ensures { result ≡ entry_text q k }
{
    let mut line = Line::new();
    line.add_entry(q, k);
    line
}

/// The line `|BITS> ENTRY` of a basis state, qubit 0 first, with its amplitude q/√2^k as it is given.
pub fn state_line(x: &Bits, q: Quad, k: u32) -> Line
    requires { length x.now ≤ 64 }
    ensures { result ≡ state_line x.now q k }
{
    let mut line = Line::new();
    line.add_state(x, q, k);
    line
}

impl Line {
    // At most 287 bytes.
    #[tactic(auto, unfolding(crate::specs::Texts::state_line))]
    pub(crate) fn add_state(&mut self, x: &Bits, q: Quad, k: u32)
        requires empty { self.old ≡ [] }
        requires few { length x.now ≤ 64 }
        ensures { self.new ≡ state_line x.now q k }
    {
        self.add(b"|");
        self.add_bits(x);
        self.add(b"> ");
        self.add_entry(q, k);
        self.add(b"\n");
    }

    // At most 220 bytes.
    pub(crate) fn add_entry(&mut self, q: Quad, k: u32)
        requires { length self.old ≤ 512 }
        ensures text { self.new ≡ self.old ++ entry_text q k }
        ensures short { length self.new ≤ length self.old + 220 }
    {
        self.add(b"(");
        self.add_integer(q.a);
        self.add(b",");
        self.add_integer(q.b);
        self.add(b",");
        self.add_integer(q.c);
        self.add(b",");
        self.add_integer(q.d);
        self.add(b")/sqrt2^");
        self.add_count(u128::from(k));
    }
}
