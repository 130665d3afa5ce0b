ghost use Rattle.std.specs.Prelude.{◌≤◌};

use super::*;
use std::test::Fail;

// Each text stands in its columns, with spaces between them.
#[test]
fn a_record_stands_in_its_columns(rt: HostRuntime) {
    let sent = SentRecord {
        street: b"OAK",
        esn: b"00102",
        company: b"XYZ02",
        ..SentRecord::new(b'M', b"3035550100", b"100")
    };
    let bytes = sent.bytes();
    assert!(rt; stands(&bytes, 0, b"M3035550100100           "));
    assert!(rt; stands(&bytes, 25, b"  OAK     "));
    assert!(rt; stands(&bytes, 85, b"  ST    DENVER   "));
    assert!(rt; stands(&bytes, 123, b"  CO  "));
    assert!(rt; stands(&bytes, 185, b"  JOHN SMITH  "));
    assert!(rt; stands(&bytes, 217, b"  10    00102  "));
    assert!(rt; stands(&bytes, 248, b"  010224    XYZ02   "));
    assert!(rt; stands(&bytes, 509, b"  *"));
}

// Whether a text stands behind so many bytes.
fn stands(bytes: &[u8; 512], at: usize, text: &[u8]) -> bool
    requires { at ≤ 512 }
{
    bytes[at..].starts_with(text)
}

#[test]
fn a_file_is_its_records_with_separators(rt: HostRuntime) -> Result<(), Fail> {
    let ends = [header(b"ABC01", b"000017"), trailer(b"ABC01", b"000000003")];
    let bytes = joined(rt.alloc(), &ends, b"\r\n")?;
    assert!(rt; bytes.len() == 1_028);
    assert_eq!(rt; &bytes[..23], b"UHL010224ABC010000171  ".as_slice());
    assert_eq!(rt;
        &bytes[510..540],
        b" *\r\nUTL010224ABC01000000003   ".as_slice()
    );
    assert_eq!(rt; &bytes[1_025..], b"*\r\n".as_slice());
    Ok(())
}
