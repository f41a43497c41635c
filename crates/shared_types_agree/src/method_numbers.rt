//! Object types of checked programs have methods as their declarations make them.

mod laws;

pub use laws::numbered_method_laws;
