//! What `--version` prints. `.ci/build` writes this file anew in its copy, with the commit and the toolchain.

/// The version of the program, if it is not that of `sftp_tool`.
pub(crate) const VERSION: Option<&str> = None;
