// Words that record nothing.
ghost use Rattle.std.specs.Prelude.{◌≡◌, ◌+◌, ◌≤◌, length};
ghost use Rattle.rows.specs.Rows.{put};
ghost use Rattle.manifold_records.specs.Written.{zeros};

// Clears n words.
pub fn store_zeros(g: &mut [u32], at: usize, n: usize)
    requires { at + n ≤ length g.old }
    ensures { g.new ≡ put g.old at (zeros n) }
{
    let end = at + n;
    g[at..end].fill(0);
}
