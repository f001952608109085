//! Words at their limits.
use super::*;
use std::test::Fail;

#[test]
fn limits(rt: HostRuntime) -> Result<(), Fail> {
    let alloc = rt.alloc();
    let bytes = vec![in alloc; 7u8; 65536]?;
    let bytes = bytes.as_slice();
    assert_eq!(rt; bytes.len(), 65536);
    assert_eq!(rt;
        MapId::new(alloc, &bytes[..64])?.copy(alloc)?.bytes(),
        &bytes[..64]
    );
    assert_eq!(rt;
        Key::new(alloc, &bytes[..255])?.copy(alloc)?.bytes(),
        &bytes[..255]
    );
    assert_eq!(rt;
        Value::new(alloc, &bytes[..65535])?.copy(alloc)?.bytes(),
        &bytes[..65535]
    );
    assert_eq!(rt;
        MapId::new(alloc, &bytes[..65]).err(),
        Some(WordFault::TooLong { len: 65 })
    );
    assert_eq!(rt;
        Key::new(alloc, &bytes[..256]).err(),
        Some(WordFault::TooLong { len: 256 })
    );
    assert_eq!(rt;
        Value::new(alloc, bytes).err(),
        Some(WordFault::TooLong { len: 65536 })
    );
    assert_eq!(rt;
        MapId::new(alloc, &bytes[..0]).err(),
        Some(WordFault::Empty)
    );
    assert_eq!(rt; Key::new(alloc, &bytes[..0]).err(), Some(WordFault::Empty));
    assert_eq!(rt; Value::new(alloc, &bytes[..0])?.bytes().len(), 0);
    Ok(())
}
