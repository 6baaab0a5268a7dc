//! Optimises scripts in files, checks them, runs them and prints their trees; `--help` says how.
#![tactic(auto)]

use std::fs::{File, ReadDir};
use std::io::Write;
use std::process::ExitCode;
use std::{env, fs, io};
use tool_command::{Files, Found, run_words};

/// The files of the system, and standard input.
#[derive(Drop)]
struct Disk<'a> {
    rt: &'a HostRuntime,
}

impl<'a> Files for Disk<'a> {
    fn text(&mut self, name: &str) -> io::Result<String> {
        if name == "-" {
            return io::read_to_string(self.rt.alloc(), self.rt.stdin());
        }
        fs::read_to_string(self.rt, name)
    }

    /// The text is written to a new file beside the old one, which then takes its place. What is no plain file, as a
    /// pipe, is written to.
    fn put(&mut self, name: &str, text: &str) -> io::Result<()> {
        match fs::symlink_metadata(self.rt, name) {
            Ok(found) if !found.is_file() => return fs::write(self.rt, name, text),
            _ => {}
        }
        let beside = format!(in self.rt.alloc(); "{name}.balvuzsom")?;
        let mut file = File::create_new(self.rt, beside.as_str())?;
        let put = self.put_beside(&mut file, name, beside.as_str(), text);
        if put.is_err() {
            let _ = fs::remove_file(self.rt, beside.as_str());
        }
        put
    }

    fn inside(&mut self, name: &str) -> io::Result<Option<Vec<Found>>> {
        let is_folder = name != "-" && fs::metadata(self.rt, name)?.is_dir();
        if is_folder {
            return Ok(Some(self.listed(fs::read_dir(self.rt, name)?)?));
        }
        Ok(None)
    }
}

impl<'a> Disk<'a> {
    /// Writes a text to this new file, which then takes the place of that name.
    fn put_beside(&self, file: &mut File, name: &str, beside: &str, text: &str) -> io::Result<()> {
        file.write_all(text.as_bytes())?;
        if let Ok(found) = fs::metadata(self.rt, name) {
            fs::set_permissions(self.rt, beside, found.permissions())?;
        }
        fs::rename(self.rt, beside, name)
    }

    fn listed(&self, entries: ReadDir) -> io::Result<Vec<Found>> {
        let mut found = Vec::new(self.rt.alloc());
        for entry in entries {
            let entry = entry?;
            let is_folder = entry.file_type()?.is_dir();
            let name = String::from_str(self.rt.alloc(), entry.path().as_str())?;
            found.push(Found { name, is_folder })?;
        }
        Ok(found)
    }
}

fn main(rt: HostRuntime) -> ExitCode {
    let words = match arguments(&rt) {
        Ok(words) => words,
        Err(_) => return ExitCode::from(2),
    };
    let status = run_words(
        rt.alloc(),
        words.as_slice(),
        &mut Disk { rt: &rt },
        &mut rt.stdout(),
        &mut rt.stderr(),
    );
    ExitCode::from(status)
}

/// The words after the program's name.
fn arguments(rt: &HostRuntime) -> io::Result<Vec<String>> {
    let words = env::args(rt)?.skip(1).collect(rt.alloc())?;
    Ok(words)
}
