//! The commands over files and output in memory, for what no clause says: that it answers where memory is ample, and that no file is
//! read behind a refusal. The wanted texts are worked examples.
use crate::files::{Case, check, check_printed, shelf_of_files};
use program::Status;
use std::alloc::AllocError;

const CASES: [Case; 32] = [
    (
        "surface torus",
        "V 7\nE 21\nF 14\nchi 0\ngenus 1\n",
        Status::Yes,
    ),
    (
        "surface pinched",
        "refused: vertex 0 pinched\n",
        Status::Refused,
    ),
    ("decide torus round", "homotopic\n", Status::Yes),
    ("decide torus across", "different\n", Status::No),
    ("decide torus pairs", "homotopic\ndifferent\n", Status::No),
    (
        "decide apart visits",
        "homotopic\nhomotopic\nhomotopic\nhomotopic\n",
        Status::Yes,
    ),
    (
        "decide torus astray",
        "refused: pair 2 end\n",
        Status::Refused,
    ),
    (
        "certify torus pairs",
        "refused: walks count 4\n",
        Status::Refused,
    ),
    ("verify tetrahedron sides moves", "accepted\n", Status::Yes),
    (
        "verify tetrahedron sides backwards",
        "rejected: move 1 face\n",
        Status::No,
    ),
    ("verify torus across denial", "accepted\n", Status::Yes),
    (
        "verify torus round denial",
        "rejected: word 1\n",
        Status::No,
    ),
    ("reduce 8 list", "1 1\n2\nempty\nempty\n", Status::Yes),
    (
        "trial 1 5",
        "trial 1 5\nV 25\nE 50\nF 25\ngenus 1\ncommuting homotopic\ncell homotopic\nloops different\n",
        Status::Yes,
    ),
    (
        "trial 3 40",
        "trial 3 40\nV 4792\nE 9592\nF 4796\ngenus 3\ncommuting different\ncell homotopic\nloops different\n",
        Status::Yes,
    ),
    ("trial 9 5", "refused: trial genus 9\n", Status::Refused),
    ("trial 1 4", "refused: trial grid 4\n", Status::Refused),
    ("trial 1 201", "refused: trial grid 201\n", Status::Refused),
    ("verify absent", "refused: words\n", Status::Refused),
    // The files behind a refusal are absent.
    (
        "decide pinched absent",
        "refused: vertex 0 pinched\n",
        Status::Refused,
    ),
    (
        "certify pinched absent",
        "refused: vertex 0 pinched\n",
        Status::Refused,
    ),
    (
        "loops pinched absent",
        "refused: vertex 0 pinched\n",
        Status::Refused,
    ),
    (
        "homology pinched absent",
        "refused: vertex 0 pinched\n",
        Status::Refused,
    ),
    (
        "decide-open torus absent",
        "refused: no boundary\n",
        Status::Refused,
    ),
    (
        "certify-open torus absent",
        "refused: no boundary\n",
        Status::Refused,
    ),
    (
        "verify sides absent absent",
        "refused: off line 2 face\n",
        Status::Refused,
    ),
    (
        "verify-homology sides absent absent",
        "refused: off line 2 face\n",
        Status::Refused,
    ),
    (
        "verify torus moves absent",
        "refused: walks line 1 number\n",
        Status::Refused,
    ),
    (
        "verify-homology torus moves absent",
        "refused: walks line 1 number\n",
        Status::Refused,
    ),
    (
        "verify-homology torus astray absent",
        "refused: walks count 4\n",
        Status::Refused,
    ),
    ("reduce 4 absent", "refused: degree 4\n", Status::Refused),
    ("decide torus absent", "", Status::ReadFault),
];

/// What prints a certificate, and what judges it.
const CERTIFICATES: [Case; 6] = [
    (
        "certify torus round",
        "verify torus round printed",
        Status::Yes,
    ),
    (
        "certify torus thrice",
        "verify torus thrice printed",
        Status::Yes,
    ),
    (
        "certify torus across",
        "verify torus across printed",
        Status::No,
    ),
    (
        "certify double round",
        "verify double round printed",
        Status::No,
    ),
    (
        "homology torus round",
        "verify-homology torus round printed",
        Status::Yes,
    ),
    (
        "homology torus across",
        "verify-homology torus across printed",
        Status::No,
    ),
];

#[test]
fn words_are_answered(rt: HostRuntime) -> Result<(), AllocError> {
    for case in &CASES {
        check(&rt, rt.alloc(), &mut shelf_of_files(rt.alloc())?, *case)?;
    }
    Ok(())
}

/// What `certify` and `homology` printed, of a yes and of a no, is put beside the files, and looked at by the judge of it.
#[test]
fn certificates_are_accepted(rt: HostRuntime) -> Result<(), AllocError> {
    for case in &CERTIFICATES {
        check_printed(&rt, rt.alloc(), &mut shelf_of_files(rt.alloc())?, *case)?;
    }
    Ok(())
}
