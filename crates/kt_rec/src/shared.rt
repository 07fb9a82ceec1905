//! The types of this crate may be sent to threads and shared by them.
//! The rule: docs/ARCHITECTURE.md, "What threads share".
use crate::curve::Curve;
use crate::descriptions::Described;
use crate::financial::FmProfile;
use crate::foot_rows::{ModelStop, RowCause};
use crate::hazard::FootRow;
use crate::kind::Kind;
use crate::name::Name;
use crate::perspective::CellKey;
use crate::table_set::TableSet;
use crate::tables::Tables;

/// Takes what may be sent to threads and shared by them.
fn is_shared<T: Send + Sync>(_: &T) {}

/// Each type once; a row type stands for all row types, which `Tables` holds.
pub(crate) fn are_shared(
    tables: &Tables,
    set: &TableSet,
    name: &Name,
    key: &CellKey,
    row: &FootRow,
    profile: &FmProfile,
    curve: &Curve,
    kind: &Kind,
    described: &Described,
    stop: &ModelStop,
    cause: &RowCause,
) {
    is_shared(tables);
    is_shared(set);
    is_shared(name);
    is_shared(key);
    is_shared(row);
    is_shared(profile);
    is_shared(curve);
    is_shared(kind);
    is_shared(described);
    is_shared(stop);
    is_shared(cause);
}
