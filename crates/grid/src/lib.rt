#![tactic(auto)]
// The grid: a circle of M units, and whole numbers laid on it.
pub mod modulus;
pub mod refusal;

#[cfg(test)]
mod tests {
    use crate::modulus::Modulus;
    use crate::refusal::ModulusRefusal;
    use std::test::Fail;

    #[test]
    fn only_2_to_2_to_the_40_make_a_modulus(rt: HostRuntime) -> Result<(), Fail> {
        assert_eq!(rt; Modulus::new(2)?.get(), 2);
        assert_eq!(rt; Modulus::new(1 << 40)?.get(), 1 << 40);
        assert_eq!(rt; Modulus::new(1), Err(ModulusRefusal::OutsideLimits));
        assert_eq!(rt;
            Modulus::new((1 << 40) + 1),
            Err(ModulusRefusal::OutsideLimits)
        );
        assert_eq!(rt; ModulusRefusal::OutsideLimits.number(), 1);
        Ok(())
    }

    #[test]
    fn residues_of_negative_numbers_are_not_negative(rt: HostRuntime) -> Result<(), Fail> {
        let m = Modulus::new(45)?;
        assert_eq!(rt; m.residue_signed(-1), 44);
        assert_eq!(rt; m.residue_signed(-45), 0);
        assert_eq!(rt; m.residue_signed_product(-17, 5), 5);
        assert_eq!(rt; m.residue_difference(10, 5, 17), 15);
        Ok(())
    }

    #[test]
    fn a_product_beyond_64_bits_keeps_its_residue(rt: HostRuntime) -> Result<(), Fail> {
        let m = Modulus::new((1 << 40) - 1)?;
        assert_eq!(rt; m.residue_product(1 << 41, 1 << 41), 4);
        Ok(())
    }
}
