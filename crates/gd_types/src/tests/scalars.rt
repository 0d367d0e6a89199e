use crate::Scalar;

#[test]
fn signed_numbers_are_in_twos_complement(rt: HostRuntime) {
    let mut two = [0u8; 2];
    Scalar::<2, true>::put(-32_768, &mut two);
    assert_eq!(rt; two, [0, 0x80]);
    assert_eq!(rt; Scalar::<2, true>::get(&two), -32_768);
    assert_eq!(rt; Scalar::<2, false>::get(&two), 32_768);
    let mut four = [0u8; 4];
    Scalar::<4, true>::put(-2, &mut four);
    assert_eq!(rt; four, [0xfe, 0xff, 0xff, 0xff]);
    assert_eq!(rt; Scalar::<4, true>::get(&four), -2);
    let mut eight = [0u8; 8];
    Scalar::<8, true>::put(9_223_372_036_854_775_807, &mut eight);
    assert_eq!(rt; eight, [0xff, 0xff, 0xff, 0xff, 0xff, 0xff, 0xff, 0x7f]);
    assert_eq!(rt; Scalar::<8, true>::get(&eight), 9_223_372_036_854_775_807);
}

#[test]
fn the_least_byte_comes_first(rt: HostRuntime) {
    let mut one = [0u8; 1];
    Scalar::<1, false>::put(200, &mut one);
    assert_eq!(rt; one, [200]);
    assert_eq!(rt; Scalar::<1, true>::get(&one), -56);
    let mut four = [0u8; 4];
    Scalar::<4, false>::put(0x0102_0304, &mut four);
    assert_eq!(rt; four, [4, 3, 2, 1]);
    let mut eight = [0u8; 8];
    Scalar::<8, false>::put(18_446_744_073_709_551_615, &mut eight);
    assert_eq!(rt; eight, [0xff; 8]);
    assert_eq!(rt; Scalar::<8, false>::get(&eight), 18_446_744_073_709_551_615);
}
