// Reads a sheet from standard input, writes its certificate, where it is planned, to descriptor 3, and then the text to standard output.
#![tactic(auto)]

ghost use Rattle.std.specs.Prelude.{◌*◌, ◌≤◌, length};
ghost use Rattle.verifying.specs.Verified.{certificate_room};

use std::fs::OpenOptions;
use std::io::{Print, Result, Write};

/// Writes the bytes to descriptor 3, which is opened anew by its name. Where there are none it is not opened, so it need not be there.
fn put_certificate(rt: HostRuntime, bytes: &[u8]) -> Result<()> {
    if bytes.len() == 0 {
        return Ok(());
    }
    let mut how = OpenOptions::new();
    how.append(true);
    how.open(&rt, "/dev/fd/3")?.write_all(bytes)
}

/// Reads a byte more than the longest sheet, so that a longer one shows. Without a plan there is no byte for descriptor 3, and nothing is written there.
fn answer(rt: HostRuntime, certificate: &mut [u8])
    requires { 4 * certificate_room ≤ length certificate.old }
{
    let mut bytes = [0u8; 64001];
    let Ok(got) = reading::read_all(&mut rt.stdin(), &mut bytes) else {
        let _ = rt
            .stderr()
            .write_all(b"certify: the sheet cannot be read\n");
        return;
    };
    let certified = certifying::certify(&bytes[..got], certificate);
    let long = certified.certificate;
    if put_certificate(rt, &certificate[..long]).is_err() {
        let _ = rt
            .stderr()
            .write_all(b"certify: the certificate cannot be written\n");
        return;
    }
    if rt.write_all(&certified.text).is_err() {
        let _ = rt
            .stderr()
            .write_all(b"certify: the plan cannot be written\n");
    }
}

fn main(rt: HostRuntime) {
    let mut certificate = [0u8; 800060];
    answer(rt, &mut certificate);
}
