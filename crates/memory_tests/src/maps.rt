//! A guest's map, looked up at its edges.

use bitflags::Flags;
use page_store::*;
use std::alloc::AllocError;

#[test]
fn addresses_have_their_slots(rt: HostRuntime) -> Result<(), AllocError> {
    let code = Perm::R | Perm::X;
    let data = Perm::R | Perm::W;
    let pages = vec![in rt.alloc();
        MappedPage::new(0x10, code),
        MappedPage::new(0x11, data),
        MappedPage::new(0x8_0010, data),
        MappedPage::new(0xd_01ff, data),
    ]?;
    let map = PageMap::new(rt.alloc(), pages)?;
    assert!(rt; map.slot_of(0xffff) == None);
    assert!(rt; map.slot_of(0x1_0000) == Some(0));
    assert!(rt; map.slot_of(0x1_1fff) == Some(1));
    assert!(rt; map.slot_of(0x1_2000) == None);
    assert!(rt; map.slot_of(0x8001_0004) == Some(2));
    assert!(rt; map.slot_of(0xd01f_ffff) == Some(3));
    assert!(rt; map.address(3) == 0xd01f_f000);
    assert!(rt; map.perm(0).bits() == 5);
    assert!(rt; map.perm(0).executes() && !map.perm(0).writes());
    Ok(())
}
