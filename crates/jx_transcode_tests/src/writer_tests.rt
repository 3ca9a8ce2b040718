//! Bytes that are written to a buffer in memory.
ghost use Rattle.std.specs.Prelude.{◌≡◌};

use crate::checks::{check, equal};
use jx_io::Refused;
use jx_rounds::{ByteWriter, MemoryWriter};
use std::test::Fail;

// Any writer takes them, by what its bound says.
fn write_both<W: ByteWriter>(writer: &mut W, first: &[u8], second: &[u8]) -> Result<(), Refused>
    requires may { W.can_write (W.kept writer.old) }
    ensures other { W.kept writer.new ≡ W.kept writer.old }
{
    writer.write(first)?;
    writer.write(second)
}

#[test]
fn pieces_stand_one_after_another(rt: HostRuntime) -> Result<(), Fail> {
    let mut writer = MemoryWriter::new(rt.alloc());
    equal(&rt, writer.bytes().len(), 0);
    check(
        &rt,
        write_both(&mut writer, &[0xFF, 0x4F], &[0xFF, 0x51, 0]).is_ok(),
    );
    equal(&rt, writer.bytes(), &[0xFF, 0x4F, 0xFF, 0x51, 0][..]);
    Ok(())
}
