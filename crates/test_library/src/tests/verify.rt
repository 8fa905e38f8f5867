pub mod question;
mod sweep;
