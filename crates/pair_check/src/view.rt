//! What is checked.

use board_items::Board;
use cond_lang::Rule;
use net_class::Classes;
use rule_pick::FactsById;

/// A board with the facts of its items, by their ids, and the rules and classes by which it is checked. The facts are those
/// that the items have under these classes (`specs/CheckViews`), which each call that takes a view asks for.
#[derive(Clone, Copy)]
pub struct CheckView<'a> {
    pub board: &'a Board,
    pub facts: &'a FactsById,
    pub rules: &'a [Rule],
    pub classes: &'a Classes,
}
