use super::*;

#[test]
fn a_list_for_proofs_takes_no_memory(rt: HostRuntime) {
    let log = Log::new().and(&7).and(&8);
    assert_eq!(rt; std::mem::size_of_val(&log), 0);
}
