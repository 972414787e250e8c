// What a search asks of the entries of a list, and the two kinds that there are.
ghost use Rattle.std.specs.Prelude.{◌≡◌};
ghost use Rattle.search.specs.Search.{Numbers, wholes, reals};
ghost use Rattle.search.specs.Settled.{closer};
ghost use Rattle.search.specs.Orders.{Order};
ghost use Rattle.search.specs.Kinds.{whole-order, real-order};

// A kind of entries: how two of them compare, and what lies between them.
pub trait Entry: Copy {
    ghost numbers: { Numbers Self };

    // Kept: this and the next have one body in both kinds. A bound `PartialOrd` would need a law that ties it to `numbers`, for two lines each.
    fn is_less(self, other: Self) -> bool
        ensures { result ≡ numbers.less self other };

    fn is_equal(self, other: Self) -> bool
        ensures { result ≡ numbers.equal self other };

    // Whether it is nearer to x than to y, which lie around it in a list that rises or falls.
    // Kept: told whether the list rises. By size (`abs_diff`, `abs`) each caller would have to show that it lies between x and y.
    fn is_closer(self, rises: bool, x: Self, y: Self) -> bool
        ensures { result ≡ closer numbers rises x self y };

    ghost ordered: { Order Self numbers.less numbers.equal };
}

impl Entry for i32 {
    ghost numbers = { wholes };

    ghost ordered = { whole-order };

    fn is_less(self, other: i32) -> bool {
        self < other
    }

    fn is_equal(self, other: i32) -> bool {
        self == other
    }

    // The differences fit an i64.
    fn is_closer(self, rises: bool, x: i32, y: i32) -> bool {
        let left = x as i64;
        let here = self as i64;
        let right = y as i64;
        if rises {
            return here - left < right - here;
        }
        left - here < here - right
    }
}

// The differences are rounded.
impl Entry for f64 {
    ghost numbers = { reals };

    ghost ordered = { real-order };

    fn is_less(self, other: f64) -> bool {
        self < other
    }

    fn is_equal(self, other: f64) -> bool {
        self == other
    }

    fn is_closer(self, rises: bool, x: f64, y: f64) -> bool {
        if rises {
            return self - x < y - self;
        }
        x - self < self - y
    }
}
