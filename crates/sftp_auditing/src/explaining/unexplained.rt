//! Why an explanation stops before its end.
use sftp_show::ExplainError;
use sftp_transcript::TranscriptError;
use sftp_treefile::TreeError;

/// Why a refusal is not explained to its end.
#[derive(Clone, Copy)]
pub(super) enum Unexplained {
    /// The transcript is not what it was when it was audited. It may be a pipe.
    OtherTranscript,
    /// The tree's file is not what it was.
    OtherTree,
    /// The lines cannot be written.
    Output,
    /// Memory ran out.
    OutOfMemory,
}

impl Unexplained {
    /// The line that says it.
    pub(super) fn line(self) -> &'static str {
        match self {
            Unexplained::OtherTranscript => {
                "sftpv3: the transcript cannot be read again, so the refusal is not explained\n"
            }
            Unexplained::OtherTree => {
                "sftpv3: the tree cannot be read again, so the refusal is not explained\n"
            }
            Unexplained::Output => "sftpv3: cannot write the explanation\n",
            Unexplained::OutOfMemory => "sftpv3: out of memory\n",
        }
    }
}

impl From<TranscriptError> for Unexplained {
    fn from(error: TranscriptError) -> Self {
        match error {
            TranscriptError::NoMemory => Unexplained::OutOfMemory,
            _ => Unexplained::OtherTranscript,
        }
    }
}

impl From<TreeError> for Unexplained {
    fn from(error: TreeError) -> Self {
        match error {
            TreeError::NoMemory => Unexplained::OutOfMemory,
            _ => Unexplained::OtherTree,
        }
    }
}

impl From<ExplainError> for Unexplained {
    fn from(error: ExplainError) -> Self {
        match error {
            ExplainError::NoMemory => Unexplained::OutOfMemory,
            ExplainError::Output(_) => Unexplained::Output,
        }
    }
}
