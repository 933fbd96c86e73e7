//! The gates that have names.
ghost use Rattle.std.specs.Prelude.{◌≡◌, ◌<◌, ◌≤◌, ◌-◌, ◌&&◌, ℕ, nat_eq, IfSome, MatchOption, option_map};
ghost use Rattle.std.specs.Str.{bytes_eq};
ghost use Rattle.std.specs.Map.{lookup};
ghost use Rattle.gate_set.specs.Matrix.{arity_of, IsKind};
ghost use Rattle.qasm_gates.specs.Gates.{builtin, own, based, bases, plainly, with_control, arity, base_arity, angle_count, base_angles, turns};
ghost use Rattle.qasm_gates.specs.Private.Seen.{seen_base, seen_builtin, items_of};
ghost use Rattle.qasm_gates.specs.Private.Counts.{turn_body};

use gate_set::Kind;

/// What a name without letters c before it stands for.
#[derive(Clone, Copy, Debug, PartialEq, Eq)]
pub enum Base {
    /// One gate.
    Gate(Kind),
    /// Quarter turns about an axis, forth and back.
    Turn(Kind, Kind),
    /// Eighths of a turn of phase.
    Phase,
}

/// What the name of a gate stands for: that of its base, with further controls.
#[derive(Clone, Copy, Debug, PartialEq, Eq)]
pub struct Builtin {
    pub controls: u8,
    pub base: Base,
}

impl Base {
    fn arity(self) -> u8
        ensures value { result ≡ base_arity (seen_base self) }
        ensures few { result ≤ 3 }
    {
        match self {
            Base::Gate(kind) => kind.arity(),
            Base::Turn(_, _) | Base::Phase => 1,
        }
    }

    pub fn angle_count(self) -> u8
        ensures { result ≡ base_angles (seen_base self) }
    {
        match self {
            Base::Gate(_) => 0,
            Base::Turn(_, _) | Base::Phase => 1,
        }
    }
}

impl Builtin {
    pub fn arity(self) -> u8
        requires { self.controls ≤ 8 }
        ensures { result ≡ arity (seen_builtin self) }
    {
        self.controls + self.base.arity()
    }

    pub fn angle_count(self) -> u8
        ensures { result ≡ angle_count (seen_builtin self) }
    {
        self.base.angle_count()
    }

    /// Whether it has so many arguments and angles.
    pub fn has_counts(self, arguments: u8, angles: u8) -> bool
        requires { self.controls ≤ 8 }
        ensures { result ≡ nat_eq arguments (arity (seen_builtin self)) && nat_eq angles (angle_count (seen_builtin self)) }
    {
        arguments == self.arity() && angles == self.angle_count()
    }
}

/// The base of a name without letters c.
fn base_named(name: &[u8]) -> Option<Base>
    ensures { option_map seen_base result ≡ lookup (bytes_eq name.now) bases }
{
    match name {
        b"x" => Some(Base::Gate(Kind::X)),
        b"y" => Some(Base::Gate(Kind::Y)),
        b"z" => Some(Base::Gate(Kind::Z)),
        b"h" => Some(Base::Gate(Kind::H)),
        b"s" => Some(Base::Gate(Kind::S)),
        b"sdg" => Some(Base::Gate(Kind::Sdg)),
        b"t" => Some(Base::Gate(Kind::T)),
        b"tdg" => Some(Base::Gate(Kind::Tdg)),
        b"rx" => Some(Base::Turn(Kind::RxP, Kind::RxM)),
        b"ry" => Some(Base::Turn(Kind::RyP, Kind::RyM)),
        b"swap" => Some(Base::Gate(Kind::Swap)),
        b"u1" => Some(Base::Phase),
        _ => None,
    }
}

// The gate of a name that stands for itself.
fn own_named(name: &[u8]) -> Option<Base>
    ensures { option_map seen_base result ≡ lookup (bytes_eq name.now) own }
{
    match name {
        b"id" => Some(Base::Gate(Kind::Id)),
        b"cx" => Some(Base::Gate(Kind::Cx)),
        b"cz" => Some(Base::Gate(Kind::Cz)),
        b"ccx" => Some(Base::Gate(Kind::Ccx)),
        b"cswap" => Some(Base::Gate(Kind::Cswap)),
        _ => None,
    }
}

// A base alone.
fn plain(base: Option<Base>) -> Option<Builtin>
    ensures named { option_map seen_builtin result ≡ option_map plainly (option_map seen_base base) }
    ensures few { IfSome result (λ b. b.controls ≡ 0) }
{
    match base {
        Some(base) => Some(Builtin { controls: 0, base }),
        None => None,
    }
}

// A gate with one further control more.
fn with_control(gate: Option<Builtin>, most: u8) -> Option<Builtin>
    requires few { IfSome gate (λ b. b.controls < most) }
    ensures named { option_map seen_builtin result ≡ option_map with_control (option_map seen_builtin gate) }
    ensures few { IfSome result (λ b. b.controls ≤ most) }
{
    match gate {
        Some(gate) => Some(Builtin {
            controls: gate.controls + 1,
            base: gate.base,
        }),
        None => None,
    }
}

// What is left of a name after a first letter c, where one may stand there.
fn after_letter(name: &[u8], most: u8) -> Option<&[u8]>
    ensures { MatchOption result (based most name.now ≡ option_map plainly (lookup (bytes_eq name.now) bases)) (λ rest. (0 < most) × (based most name.now ≡ option_map with_control (based (most - 1) rest.now))) }
{
    if most == 0 {
        return None;
    }
    let Some((first, rest)) = name.split_first() else {
        return None;
    };
    if *first == b'c' { Some(rest) } else { None }
}

// The gate of a base's name with up to so many letters c before it.
fn based(name: &[u8], most: u8) -> Option<Builtin>
    requires { most ≤ 8 }
    ensures named { option_map seen_builtin result ≡ based most name.now }
    ensures few { IfSome result (λ b. b.controls ≤ most) }
{
    match after_letter(name, most) {
        Some(rest) => with_control(based(rest, most - 1), most),
        None => plain(base_named(name)),
    }
}

/// The gate of a name.
pub fn builtin_named(name: &[u8]) -> Option<Builtin>
    ensures named { option_map seen_builtin result ≡ builtin name.now }
    ensures few { IfSome result (λ b. b.controls ≤ 8) }
{
    match own_named(name) {
        Some(base) => Some(Builtin { controls: 0, base }),
        None => based(name, 8),
    }
}

/// How a number of quarter turns is done: by how many of which kind.
pub fn turns(forth: Kind, back: Kind, quarters: u8) -> (Kind, u8)
    requires { quarters < 8 }
    ensures value { result ≡ turn_body forth back quarters }
    ensures items { (n : ℕ) → items_of n result ≡ turns n forth back quarters }
    ensures arity { arity_of forth ≡ 1 → arity_of back ≡ 1 → arity_of result.0 ≡ 1 }
    ensures power { IsKind forth → IsKind back → IsKind result.0 }
{
    if quarters == 0 {
        (Kind::Id, 1)
    } else if quarters <= 4 {
        (forth, quarters)
    } else {
        (back, 8 - quarters)
    }
}
