// Keys in order, searched by halves: how many are below a key, and so the part of them that has a number in front.
ghost use Rattle.std.specs.Prelude.{◌≡◌, ◌≤◌, length, take};
ghost use Rattle.laws.specs.Order.{sorted};
ghost use Rattle.order.specs.groups.Groups.{below};

// How many of the first n keys, which are in order, are below `key`.
pub fn search(keys: &[u64; 10240], n: usize, key: u64) -> usize
    requires n_bound { n ≤ 10240 }
    requires keys_value { sorted (take n keys.now) ≡ take n keys.now }
    ensures { result ≡ below key (take n keys.now) }
{
    let first = &keys[..n];
    first.partition_point(|&k| k < key)
}
