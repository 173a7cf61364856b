//! Kinds of errors by their names.
ghost use Rattle.std.specs.Prelude.{◌≡◌};
ghost use Rattle.crossterm_flags.specs.Variants.{value_in};
ghost use Rattle.recorder.specs.Lines.{kind_name, error_kinds, named_kinds};

use crossterm_flags::variants;
use std::io::ErrorKind;

/// The name of a kind.
pub(crate) fn kind_name(kind: ErrorKind) -> &'static str
    ensures { result.now ≡ kind_name kind }
{
    match kind {
        ErrorKind::NotFound => "NotFound",
        ErrorKind::PermissionDenied => "PermissionDenied",
        ErrorKind::ConnectionRefused => "ConnectionRefused",
        ErrorKind::ConnectionReset => "ConnectionReset",
        ErrorKind::HostUnreachable => "HostUnreachable",
        ErrorKind::NetworkUnreachable => "NetworkUnreachable",
        ErrorKind::ConnectionAborted => "ConnectionAborted",
        ErrorKind::NotConnected => "NotConnected",
        ErrorKind::AddrInUse => "AddrInUse",
        ErrorKind::AddrNotAvailable => "AddrNotAvailable",
        ErrorKind::NetworkDown => "NetworkDown",
        ErrorKind::BrokenPipe => "BrokenPipe",
        ErrorKind::AlreadyExists => "AlreadyExists",
        ErrorKind::WouldBlock => "WouldBlock",
        ErrorKind::NotADirectory => "NotADirectory",
        ErrorKind::IsADirectory => "IsADirectory",
        ErrorKind::DirectoryNotEmpty => "DirectoryNotEmpty",
        ErrorKind::ReadOnlyFilesystem => "ReadOnlyFilesystem",
        ErrorKind::FilesystemLoop => "FilesystemLoop",
        ErrorKind::StaleNetworkFileHandle => "StaleNetworkFileHandle",
        ErrorKind::InvalidInput => "InvalidInput",
        ErrorKind::InvalidData => "InvalidData",
        ErrorKind::TimedOut => "TimedOut",
        ErrorKind::WriteZero => "WriteZero",
        ErrorKind::StorageFull => "StorageFull",
        ErrorKind::NotSeekable => "NotSeekable",
        ErrorKind::QuotaExceeded => "QuotaExceeded",
        ErrorKind::FileTooLarge => "FileTooLarge",
        ErrorKind::ResourceBusy => "ResourceBusy",
        ErrorKind::ExecutableFileBusy => "ExecutableFileBusy",
        ErrorKind::Deadlock => "Deadlock",
        ErrorKind::CrossesDevices => "CrossesDevices",
        ErrorKind::TooManyLinks => "TooManyLinks",
        ErrorKind::InvalidFilename => "InvalidFilename",
        ErrorKind::ArgumentListTooLong => "ArgumentListTooLong",
        ErrorKind::Interrupted => "Interrupted",
        ErrorKind::Unsupported => "Unsupported",
        ErrorKind::UnexpectedEof => "UnexpectedEof",
        ErrorKind::OutOfMemory => "OutOfMemory",
        ErrorKind::InProgress => "InProgress",
        ErrorKind::Other => "Other",
        ErrorKind::Uncategorized => "Uncategorized",
    }
}

// All kinds.
fn kinds() -> &'static [ErrorKind]
    ensures { result.now ≡ error_kinds }
{
    &variants!(ErrorKind:
        NotFound PermissionDenied ConnectionRefused ConnectionReset HostUnreachable
        NetworkUnreachable ConnectionAborted NotConnected AddrInUse AddrNotAvailable NetworkDown
        BrokenPipe AlreadyExists WouldBlock NotADirectory IsADirectory DirectoryNotEmpty
        ReadOnlyFilesystem FilesystemLoop StaleNetworkFileHandle InvalidInput InvalidData TimedOut
        WriteZero StorageFull NotSeekable QuotaExceeded FileTooLarge ResourceBusy ExecutableFileBusy
        Deadlock CrossesDevices TooManyLinks InvalidFilename ArgumentListTooLong Interrupted
        Unsupported UnexpectedEof OutOfMemory InProgress Other Uncategorized
    )
}

/// The kind of a name, if it is one.
pub(crate) fn kind_named(name: &[u8]) -> Option<ErrorKind>
    ensures { result ≡ value_in (named_kinds error_kinds) name.now }
{
    for kind in kinds() {
        if kind_name(*kind).as_bytes() == name {
            return Some(*kind);
        }
    }
    None
}
