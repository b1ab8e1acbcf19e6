// The library's version for C.
ghost use Rattle.std.specs.Prelude.{◌≡◌};
ghost use Rattle.c_answers.specs.Version.{version};

pub fn nw_version() -> u32
    ensures { result ≡ version }
{
    c_answers::version()
}
