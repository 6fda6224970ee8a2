// Cabinets in memory and over the system's files.
use mj_io::{Cabinet, CabinetFault, FileCabinet, MemCabinet, SureCabinet};
use std::alloc::Global;
use std::fs;
use std::test::Fail;

fn three_files(alloc: Global) -> Result<Vec<(String, Vec<u8>)>, Fail> {
    let mut files = Vec::new(alloc);
    for (name, bytes) in [("a", b"one".as_slice()), ("b", b"two"), ("a", b"three")] {
        files.push((
            String::from_str(alloc, name)?,
            Vec::from_slice(alloc, bytes)?,
        ))?;
    }
    Ok(files)
}

#[test]
fn a_cabinet_holds_the_first_of_a_name(rt: HostRuntime) -> Result<(), Fail> {
    let fails = Vec::from_slice(rt.alloc(), &[2])?;
    let mut cabinet = MemCabinet::new(three_files(rt.alloc())?, fails);
    assert_eq!(rt;
        cabinet.read(rt.alloc(), "a", 10)?.as_slice(),
        b"one".as_slice()
    );
    assert_eq!(rt;
        cabinet.read(rt.alloc(), "a", 10).err(),
        Some(CabinetFault::Failed)
    );
    assert_eq!(rt;
        cabinet.read(rt.alloc(), "c", 10).err(),
        Some(CabinetFault::Failed)
    );
    assert_eq!(rt;
        cabinet.read(rt.alloc(), "b", 2)?.as_slice(),
        b"tw".as_slice()
    );
    Ok(())
}

#[test]
fn a_sure_cabinet_never_fails(rt: HostRuntime) -> Result<(), Fail> {
    let mut cabinet = SureCabinet::new(three_files(rt.alloc())?);
    assert_eq!(rt;
        cabinet.read(rt.alloc(), "a", 10)?.as_slice(),
        b"one".as_slice()
    );
    assert_eq!(rt; cabinet.read(rt.alloc(), "c", 10)?.len(), 0);
    Ok(())
}

#[test]
fn a_file_is_read_to_the_cap(rt: HostRuntime) -> Result<(), Fail> {
    let name = "read_to_the_cap.txt";
    let bytes = vec![in rt.alloc(); b'x'; 70_000]?;
    fs::write(&rt, name, bytes.as_slice())?;
    let mut cabinet = FileCabinet::new(&rt);
    assert_eq!(rt;
        cabinet.read(rt.alloc(), name, 80_000)?.as_slice(),
        bytes.as_slice()
    );
    assert_eq!(rt; cabinet.read(rt.alloc(), name, 66_000)?.len(), 66_000);
    assert_eq!(rt; cabinet.read(rt.alloc(), name, 0)?.len(), 0);
    fs::remove_file(&rt, name)?;
    assert_eq!(rt;
        cabinet.read(rt.alloc(), name, 10).err(),
        Some(CabinetFault::Failed)
    );
    Ok(())
}
