//! Symbols of angles, kept without their numbers.
ghost use Rattle.std.specs.Prelude.{◌≡◌, ◌≤◌, ◌++◌, ◌∷◌, [], pos, OnOk, All, length, map, get_or};
ghost use Rattle.std.specs.List.{flat_map};
ghost use Rattle.std.specs.Option.{option_to_list};
ghost use Rattle.qasm_gates.specs.Private.Codes.{code_in, numbers_in, symbol_by, is_end, has_number, rest_numbers, unpacked, IsSmall};

use arrayvec::ArrayVec;
use bit_lists::OutOfMemory;
use qasm_lex::Symbol;

/// A symbol without its number, or the end of an angle.
#[derive(Clone, Copy)]
pub enum Code {
    End,
    Whole,
    /// A whole number that is too wide.
    Wide,
    Real,
    Pi,
    Param,
    Function,
    Plus,
    Minus,
    Times,
    Over,
    Caret,
    Open,
    Close,
    Other,
}

impl Code {
    fn of(symbol: Symbol) -> Code
        ensures { result ≡ code_in symbol }
    {
        match symbol {
            Symbol::Whole(Some(_)) => Code::Whole,
            Symbol::Whole(None) => Code::Wide,
            Symbol::Real => Code::Real,
            Symbol::Pi => Code::Pi,
            Symbol::Param(_) => Code::Param,
            Symbol::Function => Code::Function,
            Symbol::Plus => Code::Plus,
            Symbol::Minus => Code::Minus,
            Symbol::Times => Code::Times,
            Symbol::Over => Code::Over,
            Symbol::Caret => Code::Caret,
            Symbol::Open => Code::Open,
            Symbol::Close => Code::Close,
            Symbol::Other => Code::Other,
        }
    }

    // The symbol, with the first of the numbers if it has one.
    fn symbol(self, numbers: &[i64]) -> Symbol
        ensures { result ≡ symbol_by self (get_or numbers.now 0 (pos 0)) }
    {
        let number = first_number(numbers);
        match self {
            Code::Whole => Symbol::Whole(Some(number)),
            Code::Wide => Symbol::Whole(None),
            Code::Real => Symbol::Real,
            Code::Pi => Symbol::Pi,
            Code::Param => Symbol::Param(number.unsigned_abs() as usize),
            Code::Function => Symbol::Function,
            Code::Plus => Symbol::Plus,
            Code::Minus => Symbol::Minus,
            Code::Times => Symbol::Times,
            Code::Over => Symbol::Over,
            Code::Caret => Symbol::Caret,
            Code::Open => Symbol::Open,
            Code::Close => Symbol::Close,
            Code::Other | Code::End => Symbol::Other,
        }
    }

    fn is_end(self) -> bool
        ensures { result ≡ is_end self }
    {
        match self {
            Code::End => true,
            _ => false,
        }
    }

    fn has_number(self) -> bool
        ensures { result ≡ has_number self }
    {
        match self {
            Code::Whole | Code::Param => true,
            _ => false,
        }
    }
}

// The number of a symbol, if it has one.
fn number_of(symbol: Symbol) -> Option<i64>
    requires { IsSmall symbol }
    ensures { option_to_list result ≡ numbers_in symbol }
{
    match symbol {
        Symbol::Whole(number) => number,
        Symbol::Param(number) => Some(number as i64),
        _ => None,
    }
}

fn first_number(numbers: &[i64]) -> i64
    ensures { result ≡ get_or numbers.now 0 (pos 0) }
{
    match numbers.first() {
        Some(number) => *number,
        None => 0,
    }
}

// The numbers after that of the symbol, if it has one.
fn rest_numbers(code: Code, numbers: &[i64]) -> &[i64]
    ensures { result.now ≡ rest_numbers code numbers.now }
{
    if code.has_number() {
        match numbers.split_first() {
            Some((_, rest)) => rest,
            None => numbers,
        }
    } else {
        numbers
    }
}

/// The symbols up to the first end.
pub fn symbols_in(codes: &[Code], numbers: &[i64]) -> ArrayVec<Symbol, 64>
    requires { length (unpacked codes.now numbers.now) ≤ 64 }
    ensures { result.items ≡ unpacked codes.now numbers.now }
{
    let mut symbols = ArrayVec::new();
    let mut rest = codes;
    let mut left = numbers;
    while let Some((code, after)) = rest.split_first() {
        if code.is_end() {
            return symbols;
        }
        symbols.push(code.symbol(left));
        left = rest_numbers(*code, left);
        rest = after;
    }
    symbols
}

// One symbol more.
fn add(codes: &mut Vec<Code>, numbers: &mut Vec<i64>, symbol: Symbol) -> Result<(), OutOfMemory>
    requires { IsSmall symbol }
    ensures codes { OnOk result (codes.new.items ≡ codes.old.items ++ code_in symbol ∷ []) }
    ensures numbers { OnOk result (numbers.new.items ≡ numbers.old.items ++ numbers_in symbol) }
{
    codes.push(Code::of(symbol))?;
    if let Some(number) = number_of(symbol) {
        numbers.push(number)?;
    }
    Ok(())
}

/// More symbols.
pub fn add_all(
    codes: &mut Vec<Code>,
    numbers: &mut Vec<i64>,
    symbols: &[Symbol],
) -> Result<(), OutOfMemory>
    requires { All IsSmall symbols.now }
    ensures codes { OnOk result (codes.new.items ≡ codes.old.items ++ map code_in symbols.now) }
    ensures numbers { OnOk result (numbers.new.items ≡ numbers.old.items ++ flat_map numbers_in symbols.now) }
{
    for symbol in symbols {
        add(codes, numbers, *symbol)?;
    }
    Ok(())
}
