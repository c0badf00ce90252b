use crate::{Full, Pending};
use std::test::Fail;

// With 64 words pending, one more is refused, and one of the 64 can be put again.
#[test]
fn pending_limit(rt: HostRuntime) -> Result<(), Fail> {
    let mut pending = Pending::new();
    for at in 0..64 {
        assert!(rt; pending.put(126 - 2 * at, [at as u8; 8]).is_ok());
    }
    assert!(rt; pending.put(7, [7; 8]) == Err(Full));
    assert!(rt; pending.put(6, [7; 8]).is_ok());
    assert!(rt; pending.get(6) == Some([7; 8]));
    assert!(rt; pending.get(7) == None);
    assert_eq!(rt; pending.list().len(), 64);
    pending.clear();
    assert_eq!(rt; pending.list().len(), 0);
    Ok(())
}
