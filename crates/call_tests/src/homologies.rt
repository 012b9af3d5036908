//! Certificates of homology that are made line by line, and the texts that they are. The wanted texts are of the form of docs/FORMATS.md.
use homology::HomologyCert;
use homology_files::write_homology;
use std::test::Fail;
use surf_io::MemorySink;

#[test]
fn a_chain_is_made(rt: HostRuntime) -> Result<(), Fail> {
    let mut chain = HomologyCert::new(rt.alloc(), true);
    chain.push_face(3, -1)?;
    chain.push_face(5, 2_147_483_647)?;
    let mut text = MemorySink::new(rt.alloc(), 64);
    assert!(rt; write_homology(&chain, &mut text).is_ok());
    assert!(rt; text.bytes() == b"CHAIN 2\n3 -1\n5 2147483647\n".as_slice());
    Ok(())
}

#[test]
fn a_cocycle_is_made(rt: HostRuntime) -> Result<(), Fail> {
    let mut cocycle = HomologyCert::new(rt.alloc(), false);
    cocycle.push_edge(0, 4, 1)?;
    cocycle.push_edge(0, 6, -3)?;
    let mut text = MemorySink::new(rt.alloc(), 64);
    assert!(rt; write_homology(&cocycle, &mut text).is_ok());
    assert!(rt; text.bytes() == b"COCYCLE 2\n0 4 1\n0 6 -3\n".as_slice());
    Ok(())
}
