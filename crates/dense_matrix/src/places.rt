//! Positions of a matrix by their places in the list of its entries: the row's bits, and then the column's.
ghost use Rattle.std.specs.Prelude.{◌≡◌, ◌<◌, ◌≤◌, ◌^◌, ◌/◌, ◌%◌, ◌+◌, ◌++◌, List, Bool, length};
ghost use Rattle.bit_lists.specs.Lists.{place_of};

/// The place of a row and a column.
pub fn joined_place(qubits: u8, row: u128, column: u128) -> u128
    requires small { qubits ≤ 6 }
    requires row { row < 2 ^ qubits }
    requires column { column < 2 ^ qubits }
    ensures in_matrix { result < 2 ^ (qubits + qubits) }
    ensures value { (r c : List Bool) → length r ≡ qubits → length c ≡ qubits → place_of r ≡ row → place_of c ≡ column → place_of (r ++ c) ≡ result }
{
    row * side_length(qubits) + column
}

/// The row of a place.
pub fn row_place(qubits: u8, place: u128) -> u128
    requires small { qubits ≤ 6 }
    requires in_matrix { place < 2 ^ (qubits + qubits) }
    ensures in_side { result < 2 ^ qubits }
    ensures quotient { result ≡ place / 2 ^ qubits }
    ensures value { (r c : List Bool) → length r ≡ qubits → length c ≡ qubits → place_of (r ++ c) ≡ place → place_of r ≡ result }
{
    place / side_length(qubits)
}

/// The column of a place.
pub fn column_place(qubits: u8, place: u128) -> u128
    requires small { qubits ≤ 6 }
    requires in_matrix { place < 2 ^ (qubits + qubits) }
    ensures in_side { result < 2 ^ qubits }
    ensures rest { result ≡ place % 2 ^ qubits }
    ensures value { (r c : List Bool) → length r ≡ qubits → length c ≡ qubits → place_of (r ++ c) ≡ place → place_of c ≡ result }
{
    place % side_length(qubits)
}

// How many rows there are.
fn side_length(qubits: u8) -> u128
    requires { qubits ≤ 6 }
    ensures value { result ≡ 2 ^ qubits }
    ensures small { result ≤ 64 }
{
    1 << qubits
}
