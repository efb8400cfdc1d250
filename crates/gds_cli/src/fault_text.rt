ghost use Rattle.std.specs.Prelude.{◌≡◌, ◌++◌, OnOk, codes};
ghost use Rattle.std.specs.Fmt.{decimal};
ghost use Rattle.std.specs.String.{string_bytes};
ghost use Rattle.gds_law.specs.Line.{hexadecimal, path_text, place_text, subject_of, text_about, tree};
ghost use Rattle.gds_cli.specs.FaultText.{count_line, fault_line, meant};

use gds_law::{Fault, FaultKind};
use std::alloc::AllocError;
use std::fmt::Write;

/// What a fault is about.
#[derive(Clone, Copy, Debug, PartialEq, Eq)]
enum Subject {
    /// The file.
    File,
    /// A local bitmap, or what it says of a block.
    Map,
    /// A block of a tree.
    Tree,
}

/// What a fault of this kind at this block is about. A block whose number is a multiple of 512 is a local bitmap.
fn subject_of(kind: FaultKind, block: u32) -> Subject
    ensures { meant result ≡ subject_of kind block }
{
    match kind {
        FaultKind::ShortHeader
        | FaultKind::NotDatabase
        | FaultKind::BlockSizeNotMultiple
        | FaultKind::BlockSizeTooLarge
        | FaultKind::NoBlocks
        | FaultKind::BadLimit
        | FaultKind::ShortFile
        | FaultKind::LongFile
        | FaultKind::ReservedByte
        | FaultKind::BadTransactionNumber
        | FaultKind::WrongFreeCount => Subject::File,
        FaultKind::MapUsedTooSmall
        | FaultKind::MapUsedTooLarge
        | FaultKind::MapLevel
        | FaultKind::GroupMarkedFree
        | FaultKind::GroupMarkedFull
        | FaultKind::IllegalPair
        | FaultKind::UsedMarkedFree
        | FaultKind::UnusedMarkedBusy
        | FaultKind::PairPastTotal => Subject::Map,
        FaultKind::BadVersion | FaultKind::TransactionTooNew => {
            if block % 512 == 0 {
                Subject::Map
            } else {
                Subject::Tree
            }
        }
        _ => Subject::Tree,
    }
}

/// Appends the line of a fault.
pub(crate) fn write_fault(fault: &Fault, text: &mut String) -> Result<(), AllocError>
    ensures { OnOk result (string_bytes text.new ≡ string_bytes text.old ++ fault_line fault.now) }
{
    text.push_str(fault.kind.name())?;
    text.push(' ')?;
    write_about(subject_of(fault.kind, fault.block), fault, text)?;
    text.push('\n')
}

/// Appends where a fault stands.
fn write_about(subject: Subject, fault: &Fault, text: &mut String) -> Result<(), AllocError>
    ensures { OnOk result (string_bytes text.new ≡ string_bytes text.old ++ text_about (meant subject) fault.now) }
{
    match subject {
        Subject::File => text.push_str("file"),
        Subject::Map => write_map(fault.block, text),
        Subject::Tree => write_tree(fault, text),
    }
}

/// Appends the block of a local bitmap, or the one that a pair speaks of.
fn write_map(block: u32, text: &mut String) -> Result<(), AllocError>
    ensures { OnOk result (string_bytes text.new ≡ string_bytes text.old ++ (hexadecimal block ++ codes " map")) }
{
    write!(text, "{block:X} map")
}

/// Appends the place in a block of a tree, its level and its path.
fn write_tree(fault: &Fault, text: &mut String) -> Result<(), AllocError>
    ensures { OnOk result (string_bytes text.new ≡ string_bytes text.old ++ text_about tree fault.now) }
{
    write_place(fault.block, fault.offset, text)?;
    write_level(fault.level, text)?;
    write_path(fault.path.as_slice(), text)
}

/// Appends a place: the block, and the offset there.
fn write_place(block: u32, offset: u32, text: &mut String) -> Result<(), AllocError>
    ensures { OnOk result (string_bytes text.new ≡ string_bytes text.old ++ place_text (block, offset)) }
{
    write!(text, "{block:X}:{offset:X}")
}

fn write_level(level: u8, text: &mut String) -> Result<(), AllocError>
    ensures { OnOk result (string_bytes text.new
        ≡ string_bytes text.old ++ (codes " level " ++ decimal level ++ codes " path")) }
{
    write!(text, " level {level} path")
}

/// Appends a path: each record by its block and its offset, or a dash where there is none.
fn write_path(steps: &[(u32, u32)], text: &mut String) -> Result<(), AllocError>
    ensures { OnOk result (string_bytes text.new ≡ string_bytes text.old ++ path_text steps.now) }
{
    if steps.is_empty() {
        return text.push_str(" -");
    }
    for (block, offset) in steps {
        write!(text, " {block:X}:{offset:X}")?;
    }
    Ok(())
}

/// Appends the line that says how many faults there are.
pub(crate) fn write_count(count: usize, text: &mut String) -> Result<(), AllocError>
    ensures { OnOk result (string_bytes text.new ≡ string_bytes text.old ++ count_line count) }
{
    writeln!(text, "FAULTS {count}")
}
