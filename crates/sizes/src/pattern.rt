// The types of the numbers of a field: each value has a pattern, which is the number that the format knows.
ghost use Rattle.std.specs.Prelude.{◌≡◌, ℕ};
ghost use Rattle.std.specs.Int.{w64, cast_unsigned};

// A number of a field.
pub(crate) trait Pattern: Copy {
    ghost pattern_of: { Self → ℕ };

    fn pattern(self) -> u64
        ensures { result ≡ pattern_of self };
}

impl Pattern for u32 {
    ghost pattern_of = { λ value. value };

    fn pattern(self) -> u64 {
        u64::from(self)
    }
}

impl Pattern for u64 {
    ghost pattern_of = { λ value. value };

    fn pattern(self) -> u64 {
        self
    }
}

// A signed number is sign extended to 64 bits.
impl Pattern for i32 {
    ghost pattern_of = { cast_unsigned w64 };

    fn pattern(self) -> u64 {
        i64::from(self).cast_unsigned()
    }
}

impl Pattern for i64 {
    ghost pattern_of = { cast_unsigned w64 };

    fn pattern(self) -> u64 {
        self.cast_unsigned()
    }
}
