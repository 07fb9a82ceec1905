//! The types of this crate may be sent to threads and shared by them.
//! The rule: docs/ARCHITECTURE.md, "What threads share".
use crate::climbing::Climbed;
use crate::layers::TopLayer;
use crate::table::Table;
use crate::table_losses::TableLosses;

/// Takes what may be sent to threads and shared by them.
fn is_shared<T: Send + Sync>(_: &T) {}

/// Each type once.
pub(crate) fn are_shared(climbed: &Climbed, layer: &TopLayer, table: &Table, made: &TableLosses) {
    is_shared(climbed);
    is_shared(layer);
    is_shared(table);
    is_shared(made);
}
