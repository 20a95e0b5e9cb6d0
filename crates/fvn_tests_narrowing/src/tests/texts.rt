//! Texts of modules.
use fvn_terms::NoMemory;
use std::alloc::Global;
use std::string::String;

/// A module with these statements.
pub fn module_of(alloc: Global, statements: &str) -> Result<String, NoMemory> {
    let mut text = String::new(alloc);
    text.push_str("fmod M is ")?;
    text.push_str(statements)?;
    text.push_str(" endfm")?;
    Ok(text)
}
