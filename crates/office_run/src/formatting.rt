//! Formatting the disks.
ghost use Rattle.std.specs.Prelude.{◌≡◌};
ghost use Rattle.ali_base.specs.Faults.{Rose};
ghost use Rattle.office_run.specs.Disks.{disks_of, counts_of};
ghost use Rattle.office_run.specs.Formatted.{Formats, AreFormatted, ended};
ghost use Rattle.world_rows.specs.Counts.{NeverFall};

use crate::status::Status;
use ali_base::{DiskName, NodeName, Sink, put_all};
use crash_disk::Disk;
use duty_register::{FormatFault, format_duty};

/// Formats the three disks, which are to be empty, and says so.
pub(crate) fn format<K: Sink, D: Disk>(sink: &mut K, a: &mut D, b: &mut D, duty: &mut D) -> Status
    ensures formats { Formats (disks_of D.state a.old b.old duty.old) (disks_of D.state a.new b.new duty.new)
        (K.contents sink.old) (K.contents sink.new) result }
    ensures sink_fault { result ≡ Status.SinkFault → Rose (K.faults sink.old) (K.faults sink.new) }
    ensures faults { NeverFall (counts_of (disks_of D.state a.old b.old duty.old))
        (counts_of (disks_of D.state a.new b.new duty.new)) }
{
    if let Err(status) = format_all(a, b, duty) {
        return status;
    }
    match put_all(sink, b"FORMATTED\n") {
        Ok(()) => Status::Done,
        Err(_) => Status::SinkFault,
    }
}

// Formats the disks one after the other, the register's first.
fn format_all<D: Disk>(a: &mut D, b: &mut D, duty: &mut D) -> Result<(), Status>
    ensures formats { AreFormatted (disks_of D.state a.old b.old duty.old)
        (disks_of D.state a.new b.new duty.new) result }
    ensures faults { NeverFall (counts_of (disks_of D.state a.old b.old duty.old))
        (counts_of (disks_of D.state a.new b.new duty.new)) }
{
    ended(format_duty(duty), DiskName::Duty)?;
    ended(node_journal::format(a, NodeName::A), DiskName::A)?;
    ended(node_journal::format(b, NodeName::B), DiskName::B)
}

// The status where a disk is not formatted.
fn ended(formatted: Result<(), FormatFault>, disk: DiskName) -> Result<(), Status>
    ensures { result ≡ ended formatted disk }
{
    match formatted {
        Ok(()) => Ok(()),
        Err(FormatFault::DiskFault) => Err(Status::OpenFault(disk)),
        Err(FormatFault::NotEmpty(_)) => Err(Status::NotEmpty(disk)),
    }
}
