#![tactic(auto)]
// Lengths: whole units in an arithmetic that code above is generic over.
pub mod arithmetic;
pub mod double;
pub mod whole;

#[cfg(test)]
mod tests {
    use crate::arithmetic::Arithmetic;
    use crate::double::Double;
    use std::process::Abort;

    fn figures_hold<A: Arithmetic>(rt: &impl Abort) {
        let divisor = A::from_units(17);
        let (quotient, rest) = A::from_units(45).divide(divisor);
        assert_eq!(rt; quotient, 2);
        assert_eq!(rt; rest.to_units(), 11);
        assert!(rt; rest.less(divisor));
        assert!(rt; !divisor.less(rest));
        assert_eq!(rt; A::from_units(1 << 40).to_units(), 1 << 40);
    }

    #[test]
    fn figures_hold_in_whole_numbers(rt: HostRuntime) {
        figures_hold::<u64>(&rt);
    }

    #[test]
    fn figures_hold_in_floats(rt: HostRuntime) {
        figures_hold::<Double>(&rt);
    }
}
