// Numbers that stand for things, sorted: they rise exactly if no two are equal.
ghost use Rattle.std.specs.Prelude.{◌≡◌, ◌++◌, take, drop};
ghost use Rattle.laws.specs.Order.{sorted, rising};

// Sorts the first n keys, and answers whether they rise then.
pub fn rise(keys: &mut [u64; 10240], n: usize) -> bool
    ensures value { result ≡ rising (sorted (take n keys.old)) }
    ensures keys_after { keys.new ≡ sorted (take n keys.old) ++ drop n keys.old }
{
    order::sort(keys, n);
    order::is_rising(keys, n)
}
