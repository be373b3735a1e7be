//! The version of the tool.

/// The version of the tool, which the package has too.
pub(crate) const VERSION: &str = "0.2.0";

/// The version, and the logic of the toolchain that proves the program and builds it.
pub(crate) const LONG_VERSION: &str = "\
0.2.0
toolchain Rattle, logic dac8208d650f15bf";
