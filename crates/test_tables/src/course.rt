//! Requests that come one after another, and the questions that are asked behind them.
use std::alloc::{AllocError, Global};

/// A course: requests, and questions, each as its bytes come in.
#[derive(Drop)]
pub struct Course {
    pub requests: Vec<Vec<u8>>,
    pub questions: Vec<Vec<u8>>,
    /// Whether what is added next is a question.
    pub asks: bool,
}

impl Course {
    /// No request and no question.
    pub fn new(alloc: Global) -> Course {
        Course {
            requests: Vec::new(alloc),
            questions: Vec::new(alloc),
            asks: false,
        }
    }

    /// Adds a request, or a question.
    pub fn add(&mut self, bytes: Vec<u8>) -> Result<(), AllocError> {
        if self.asks {
            self.questions.push(bytes)?;
        } else {
            self.requests.push(bytes)?;
        }
        Ok(())
    }
}
