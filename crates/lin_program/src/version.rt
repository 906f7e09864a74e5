//! What `--version` prints behind the program's name.

/// The version of the program, and the kit that it was proved with, as `rt version` prints it.
pub const VERSION: &str = "1.0.0\nrattle-kit-13f logic dac8208d650f15bf";
