// The library's version for C.
ghost use Rattle.std.specs.Prelude.{◌≡◌};
ghost use Rattle.c_answers.specs.Version.{version};

#[unsafe(no_mangle)]
pub extern "C" fn nw_version() -> u32
    ensures { result ≡ version }
{
    neapwillow::c_version::nw_version()
}
