//! The devices of a run.

/// What a number of a table is of.
#[derive(Clone, Copy)]
pub enum Device {
    ReadMost,
    WriteMost,
    BadBegin,
    BadRead,
    BadWrite,
    BadErrWrite,
}

impl Device {
    /// The device of a name.
    pub fn named(name: &str) -> Option<Device> {
        match name {
            "read_most" => Some(Device::ReadMost),
            "write_most" => Some(Device::WriteMost),
            "bad_begin" => Some(Device::BadBegin),
            "bad_read" => Some(Device::BadRead),
            "bad_write" => Some(Device::BadWrite),
            "bad_err_write" => Some(Device::BadErrWrite),
            _ => None,
        }
    }

    /// The name of a device.
    pub fn name(self) -> &'static str {
        match self {
            Device::ReadMost => "read_most",
            Device::WriteMost => "write_most",
            Device::BadBegin => "bad_begin",
            Device::BadRead => "bad_read",
            Device::BadWrite => "bad_write",
            Device::BadErrWrite => "bad_err_write",
        }
    }
}

/// How many bytes a read and a write take at most, and which calls fail: counted from 1, and 0 where none does.
#[derive(Clone, Copy)]
pub struct Devices {
    pub read_most: u32,
    pub write_most: u32,
    pub bad_begin: u32,
    pub bad_read: u32,
    pub bad_write: u32,
    pub bad_err_write: u32,
}

/// The devices of a row that says nothing of them.
pub const CALM: Devices = Devices {
    read_most: 16,
    write_most: 1_000_000,
    bad_begin: 0,
    bad_read: 0,
    bad_write: 0,
    bad_err_write: 0,
};

impl Devices {
    /// These devices with another number for one.
    pub fn with(self, device: Device, number: u32) -> Devices {
        let mut devices = self;
        match device {
            Device::ReadMost => devices.read_most = number,
            Device::WriteMost => devices.write_most = number,
            Device::BadBegin => devices.bad_begin = number,
            Device::BadRead => devices.bad_read = number,
            Device::BadWrite => devices.bad_write = number,
            Device::BadErrWrite => devices.bad_err_write = number,
        }
        devices
    }
}
