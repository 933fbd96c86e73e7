//! A connective at all functions of two variables.
use crate::made::applied;
use call_rows::Page;
use diagram_ops::Diagrams;
use node_store::{FALSE, Node};

/// The answers of a connective at the 4,096 triples of 16 nodes, each as its place among them, a digit of base 16, or a dot.
pub fn tell_connectives(d: &mut Diagrams, table: u8, nodes: &[Node], page: &mut Page) {
    for triple in 0..4096u16 {
        let at = [
            node_of(nodes, triple / 256),
            node_of(nodes, triple / 16 % 16),
            node_of(nodes, triple % 16),
        ];
        match applied(d, table, at) {
            Ok(n) => page.put(&[digit_of(nodes, n)]),
            Err(stop) => page.show(&stop),
        }
    }
}

fn node_of(nodes: &[Node], place: u16) -> Node {
    match nodes.get(usize::from(place)) {
        Some(n) => *n,
        None => FALSE,
    }
}

fn digit_of(nodes: &[Node], n: Node) -> u8 {
    for (place, digit) in b"0123456789abcdef".iter().enumerate() {
        if nodes.get(place) == Some(&n) {
            return *digit;
        }
    }
    b'.'
}
