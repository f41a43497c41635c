//! Names, places, types, and the sizes of types.
#![tactic(auto)]

mod copies;
mod definitions;
mod layout;
mod lists;
mod sizes;
mod storage;
mod table;
mod texts;
mod wanted;
mod words;

pub use definitions::{
    Field, Fields, Header, Host, Kind, Method, Methods, Origin, Param, Params, RoutineId, TypeDef,
    TypeId,
};
pub use layout::Layout;
pub use lists::{Bytes, Names, Sequence};
pub use sizes::{class_field_of, has_field, offset_of, size_of};
pub use storage::storage_of;
pub use table::{TYPE_LIMIT, TypeError, Types};
pub use texts::{FILE_NAME_LEN, FileName, Place};
pub use words::{NAME_LEN, Name};
