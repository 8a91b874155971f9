//! What is left of the volumes' files at an orderly end.

use afpd_lib::server::setup::VolumePlace;
use sqlite_durable_file::empty_log;
use std::str;

/// Copies what the log beside a file holds into the file. Where that fails a person is told: the next start reads the log.
fn close_log(rt: &HostRuntime, name: &str) {
    if let Err(error) = empty_log(rt, name) {
        let _told = eprintln!(rt; "{name}: its log stays: {error}");
    }
}

/// The same for each volume in a file. No keeper may have one of them open.
pub fn close_logs(rt: &HostRuntime, places: &[VolumePlace]) {
    for place in places {
        match place {
            VolumePlace::Memory => {}
            VolumePlace::File(name) => {
                if let Ok(name) = str::from_utf8(name.as_slice()) {
                    close_log(rt, name);
                }
            }
        }
    }
}
