//! Laws that stand on calls which do nothing.
use bit_lists::{lists_by_place, order_by_place};
use call_rows::Page;
use gate_set::{inverse_is_adjoint, matrix_is_unitary};
use probabilities::states_by_outcome;
use qasm_reader::{every_text_reads, one_reading, texts_read_as_circuits};
use ring_omega::{
    lowest_form_is_lowest, lowest_form_is_unique, lowest_form_of_zero,
    lowest_weight_form_is_lowest, lowest_weight_is_unique, lowest_weight_of_zero,
    root_of_two_squared, weight_is_squared_magnitude,
};

pub fn call_laws(page: &mut Page) {
    lists_by_place();
    order_by_place();
    root_of_two_squared();
    lowest_form_is_unique();
    lowest_form_of_zero();
    lowest_form_is_lowest();
    weight_is_squared_magnitude();
    lowest_weight_is_unique();
    lowest_weight_of_zero();
    lowest_weight_form_is_lowest();
    matrix_is_unitary();
    inverse_is_adjoint();
    states_by_outcome();
    one_reading();
    every_text_reads();
    texts_read_as_circuits();
    page.text("called");
}
