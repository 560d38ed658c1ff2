//! The program as a function.
use command_runs::program::program;
use rc_instr::Outlet;
use std::test::Fail;

const TWO_IMPS: &[u8] =
    b"rules 16 20 4 4 4\nfight 8 c\ncandidate\nORG 0\nMOV.I $0, $1\nopponent\nORG 0\nMOV.I $0, $1\n";

#[test]
fn two_imps_tie(rt: HostRuntime) -> Result<(), Fail> {
    let mut input = TWO_IMPS;
    let mut out = Outlet::new(Vec::new(rt.alloc()));
    let mut err = Outlet::new(Vec::new(rt.alloc()));
    let status = program(&rt, rt.alloc(), &[], &mut input, &mut out, &mut err);
    assert_eq!(rt; status, 0);
    assert_eq!(rt; out.into_inner().as_slice(), b"tie 1 turns 40\n".as_slice());
    assert!(rt; err.into_inner().is_empty());
    Ok(())
}
