//! The put of a transmission whose body was fed.
ghost use Rattle.std.specs.Prelude.{◌≡◌};

use cwr_files::FileReader;
use society_core::TransmissionKey;

/// The put of a transmission, whose body was fed to a reader of its sender.
#[derive(Drop)]
pub struct FedPut {
    pub key: TransmissionKey,
    pub reader: FileReader,
    ghost same: { reader.sender ≡ key.sender },
}
