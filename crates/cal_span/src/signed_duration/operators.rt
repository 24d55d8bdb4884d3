//! The operators. The exact result must be a duration, and the divisor must not be zero.

ghost use Rattle.std.specs.Prelude.{◌≡◌, pos, neg_ℤ, ◌+ℤ◌, ◌-ℤ◌, ◌*ℤ◌};
ghost use Rattle.cal_span.specs.SignedDuration.{IsDuration, IsMagnitudeWithin, HasQuotient, cut};

use crate::SignedDuration;
use crate::signed_duration::arithmetic::MAX_OPERAND;
use std::ops::{Add, AddAssign, Div, DivAssign, Mul, MulAssign, Neg, Sub, SubAssign};

impl SignedDuration {
    /// Computes `self * factor`. The magnitude of the factor fits in a `u32`.
    fn product(self, factor: i64) -> Self
        requires small { IsMagnitudeWithin MAX_OPERAND factor }
        requires exact { IsDuration (self *ℤ factor) }
        ensures { result ≡ self *ℤ factor }
    {
        self.checked_product(factor).unwrap()
    }

    /// Computes `self / divisor`, truncated toward zero. The magnitude of the divisor fits in a
    /// `u32`.
    fn quotient(self, divisor: i64) -> Self
        requires small { IsMagnitudeWithin MAX_OPERAND divisor }
        requires exact { HasQuotient self divisor }
        ensures { result ≡ cut self divisor }
    {
        self.checked_quotient(divisor).unwrap()
    }
}

impl Add for SignedDuration {
    type Output = Self;

    ghost can_add = { λ a b. IsDuration (a +ℤ b) };

    ghost add_gives = { λ a b sum. sum ≡ a +ℤ b };

    /// Returns the sum, which must be in the range. 1 s plus -1 ns is 999999999 ns.
    fn add(self, rhs: Self) -> Self {
        self.checked_add(rhs).unwrap()
    }
}

impl AddAssign for SignedDuration {
    ghost can_add_assign = { λ a b. IsDuration (a +ℤ b) };

    ghost add_assign_gives = { λ a b sum. sum ≡ a +ℤ b };

    fn add_assign(&mut self, rhs: Self) {
        *self = *self + rhs;
    }
}

impl Sub for SignedDuration {
    type Output = Self;

    ghost can_sub = { λ a b. IsDuration (a -ℤ b) };

    ghost sub_gives = { λ a b difference. difference ≡ a -ℤ b };

    /// Returns the difference, which must be in the range. 1 s minus 1 ns is 999999999 ns.
    fn sub(self, rhs: Self) -> Self {
        self.checked_sub(rhs).unwrap()
    }
}

impl SubAssign for SignedDuration {
    ghost can_sub_assign = { λ a b. IsDuration (a -ℤ b) };

    ghost sub_assign_gives = { λ a b difference. difference ≡ a -ℤ b };

    fn sub_assign(&mut self, rhs: Self) {
        *self = *self - rhs;
    }
}

impl Neg for SignedDuration {
    type Output = Self;

    ghost can_neg = { λ a. IsDuration (neg_ℤ a) };

    ghost neg_gives = { λ a opposite. opposite ≡ neg_ℤ a };

    /// Returns the duration with the opposite sign, which must be in the range. For 1 s it is -1 s.
    fn neg(self) -> Self {
        self.checked_neg().unwrap()
    }
}

impl Mul<i8> for SignedDuration {
    type Output = Self;

    ghost can_mul = { λ a k. IsDuration (a *ℤ k) };

    ghost mul_gives = { λ a k product. product ≡ a *ℤ k };

    /// Returns the product, which must be in the range. 2 s times -3 is -6 s.
    fn mul(self, rhs: i8) -> Self {
        self.product(i64::from(rhs))
    }
}

impl MulAssign<i8> for SignedDuration {
    ghost can_mul_assign = { λ a k. IsDuration (a *ℤ k) };

    ghost mul_assign_gives = { λ a k product. product ≡ a *ℤ k };

    fn mul_assign(&mut self, rhs: i8) {
        *self = *self * rhs;
    }
}

impl Div<i8> for SignedDuration {
    type Output = Self;

    ghost can_div = { λ a k. HasQuotient a k };

    ghost div_gives = { λ a k quotient. quotient ≡ cut a k };

    /// Returns the quotient, truncated toward zero, which must be in the range. `rhs` must not be
    /// 0. For -7 ns and 2 it is -3 ns.
    fn div(self, rhs: i8) -> Self {
        self.quotient(i64::from(rhs))
    }
}

impl DivAssign<i8> for SignedDuration {
    ghost can_div_assign = { λ a k. HasQuotient a k };

    ghost div_assign_gives = { λ a k quotient. quotient ≡ cut a k };

    fn div_assign(&mut self, rhs: i8) {
        *self = *self / rhs;
    }
}

impl Mul<i16> for SignedDuration {
    type Output = Self;

    ghost can_mul = { λ a k. IsDuration (a *ℤ k) };

    ghost mul_gives = { λ a k product. product ≡ a *ℤ k };

    /// Returns the product, which must be in the range. 2 s times -3 is -6 s.
    fn mul(self, rhs: i16) -> Self {
        self.product(i64::from(rhs))
    }
}

impl MulAssign<i16> for SignedDuration {
    ghost can_mul_assign = { λ a k. IsDuration (a *ℤ k) };

    ghost mul_assign_gives = { λ a k product. product ≡ a *ℤ k };

    fn mul_assign(&mut self, rhs: i16) {
        *self = *self * rhs;
    }
}

impl Div<i16> for SignedDuration {
    type Output = Self;

    ghost can_div = { λ a k. HasQuotient a k };

    ghost div_gives = { λ a k quotient. quotient ≡ cut a k };

    /// Returns the quotient, truncated toward zero, which must be in the range. `rhs` must not be
    /// 0. For -7 ns and 2 it is -3 ns.
    fn div(self, rhs: i16) -> Self {
        self.quotient(i64::from(rhs))
    }
}

impl DivAssign<i16> for SignedDuration {
    ghost can_div_assign = { λ a k. HasQuotient a k };

    ghost div_assign_gives = { λ a k quotient. quotient ≡ cut a k };

    fn div_assign(&mut self, rhs: i16) {
        *self = *self / rhs;
    }
}

impl Mul<i32> for SignedDuration {
    type Output = Self;

    ghost can_mul = { λ a k. IsDuration (a *ℤ k) };

    ghost mul_gives = { λ a k product. product ≡ a *ℤ k };

    /// Returns the product, which must be in the range. 2 s times -3 is -6 s.
    fn mul(self, rhs: i32) -> Self {
        self.product(i64::from(rhs))
    }
}

impl MulAssign<i32> for SignedDuration {
    ghost can_mul_assign = { λ a k. IsDuration (a *ℤ k) };

    ghost mul_assign_gives = { λ a k product. product ≡ a *ℤ k };

    fn mul_assign(&mut self, rhs: i32) {
        *self = *self * rhs;
    }
}

impl Div<i32> for SignedDuration {
    type Output = Self;

    ghost can_div = { λ a k. HasQuotient a k };

    ghost div_gives = { λ a k quotient. quotient ≡ cut a k };

    /// Returns the quotient, truncated toward zero, which must be in the range. `rhs` must not be
    /// 0. For -7 ns and 2 it is -3 ns.
    fn div(self, rhs: i32) -> Self {
        self.quotient(i64::from(rhs))
    }
}

impl DivAssign<i32> for SignedDuration {
    ghost can_div_assign = { λ a k. HasQuotient a k };

    ghost div_assign_gives = { λ a k quotient. quotient ≡ cut a k };

    fn div_assign(&mut self, rhs: i32) {
        *self = *self / rhs;
    }
}

impl Mul<u8> for SignedDuration {
    type Output = Self;

    ghost can_mul = { λ a k. IsDuration (a *ℤ pos k) };

    ghost mul_gives = { λ a k product. product ≡ a *ℤ pos k };

    /// Returns the product, which must be in the range. 2 s times 3 is 6 s.
    fn mul(self, rhs: u8) -> Self {
        self.product(i64::from(rhs))
    }
}

impl MulAssign<u8> for SignedDuration {
    ghost can_mul_assign = { λ a k. IsDuration (a *ℤ pos k) };

    ghost mul_assign_gives = { λ a k product. product ≡ a *ℤ pos k };

    fn mul_assign(&mut self, rhs: u8) {
        *self = *self * rhs;
    }
}

impl Div<u8> for SignedDuration {
    type Output = Self;

    ghost can_div = { λ a k. HasQuotient a (pos k) };

    ghost div_gives = { λ a k quotient. quotient ≡ cut a (pos k) };

    /// Returns the quotient, truncated toward zero. `rhs` must not be 0. For -7 ns and 2 it is -3
    /// ns.
    fn div(self, rhs: u8) -> Self {
        self.quotient(i64::from(rhs))
    }
}

impl DivAssign<u8> for SignedDuration {
    ghost can_div_assign = { λ a k. HasQuotient a (pos k) };

    ghost div_assign_gives = { λ a k quotient. quotient ≡ cut a (pos k) };

    fn div_assign(&mut self, rhs: u8) {
        *self = *self / rhs;
    }
}

impl Mul<u16> for SignedDuration {
    type Output = Self;

    ghost can_mul = { λ a k. IsDuration (a *ℤ pos k) };

    ghost mul_gives = { λ a k product. product ≡ a *ℤ pos k };

    /// Returns the product, which must be in the range. 2 s times 3 is 6 s.
    fn mul(self, rhs: u16) -> Self {
        self.product(i64::from(rhs))
    }
}

impl MulAssign<u16> for SignedDuration {
    ghost can_mul_assign = { λ a k. IsDuration (a *ℤ pos k) };

    ghost mul_assign_gives = { λ a k product. product ≡ a *ℤ pos k };

    fn mul_assign(&mut self, rhs: u16) {
        *self = *self * rhs;
    }
}

impl Div<u16> for SignedDuration {
    type Output = Self;

    ghost can_div = { λ a k. HasQuotient a (pos k) };

    ghost div_gives = { λ a k quotient. quotient ≡ cut a (pos k) };

    /// Returns the quotient, truncated toward zero. `rhs` must not be 0. For -7 ns and 2 it is -3
    /// ns.
    fn div(self, rhs: u16) -> Self {
        self.quotient(i64::from(rhs))
    }
}

impl DivAssign<u16> for SignedDuration {
    ghost can_div_assign = { λ a k. HasQuotient a (pos k) };

    ghost div_assign_gives = { λ a k quotient. quotient ≡ cut a (pos k) };

    fn div_assign(&mut self, rhs: u16) {
        *self = *self / rhs;
    }
}

impl Mul<u32> for SignedDuration {
    type Output = Self;

    ghost can_mul = { λ a k. IsDuration (a *ℤ pos k) };

    ghost mul_gives = { λ a k product. product ≡ a *ℤ pos k };

    /// Returns the product, which must be in the range. 2 s times 3 is 6 s.
    fn mul(self, rhs: u32) -> Self {
        self.product(i64::from(rhs))
    }
}

impl MulAssign<u32> for SignedDuration {
    ghost can_mul_assign = { λ a k. IsDuration (a *ℤ pos k) };

    ghost mul_assign_gives = { λ a k product. product ≡ a *ℤ pos k };

    fn mul_assign(&mut self, rhs: u32) {
        *self = *self * rhs;
    }
}

impl Div<u32> for SignedDuration {
    type Output = Self;

    ghost can_div = { λ a k. HasQuotient a (pos k) };

    ghost div_gives = { λ a k quotient. quotient ≡ cut a (pos k) };

    /// Returns the quotient, truncated toward zero. `rhs` must not be 0. For -7 ns and 2 it is -3
    /// ns.
    fn div(self, rhs: u32) -> Self {
        self.quotient(i64::from(rhs))
    }
}

impl DivAssign<u32> for SignedDuration {
    ghost can_div_assign = { λ a k. HasQuotient a (pos k) };

    ghost div_assign_gives = { λ a k quotient. quotient ≡ cut a (pos k) };

    fn div_assign(&mut self, rhs: u32) {
        *self = *self / rhs;
    }
}
